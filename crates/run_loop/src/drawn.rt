// Frames that are drawn while a run goes on.
ghost use Rattle.std.specs.Prelude.{◌≡◌, ◌<◌, ◌++◌, Some, None, map, IfOk, OnOk, OnErr};
ghost use Rattle.std.specs.Option.{ForSome};
ghost use Rattle.cell_grid.specs.Space.{cell_count};
ghost use Rattle.frame_draw.specs.Drawing.{CanDraw, frame_of, with_value};
ghost use Rattle.frame_draw.specs.Turns.{is_other};
ghost use Rattle.run_loop.specs.Showing.{showing_none, with_drawing, with_taken, shown_of};
ghost use Rattle.run_loop.specs.Showing.{took, plain, showing_after_instant};

use cell_grid::Grid;
use frame_draw::Frames;
use quantity::{OutOfMemory, Time, Value};
use std::alloc::Global;
use std::marker::Model;
use text_forms::YRecord;

/// The frames of the group whose first cell has the leaf number `first`. It is seen as that number
/// and the frames that are being drawn.
#[derive(Drop)]
pub struct Drawn {
    first: u32,
    cells: u32,
    begun: Option<Time>,
    frames: Frames,
}

impl Model for Drawn {
    ghost use Rattle.std.specs.Prelude.{◌≡◌};
    ghost use Rattle.cell_grid.specs.Space.{cell_count};
    ghost use Rattle.run_loop.specs.Showing.{Showing};

    ghost Value = { Showing };

    ghost view = { λ d. record { first = d.first; drawing = d.frames } };

    ghost invariant = { λ d. (d.cells ≡ cell_count d.frames.picture.space)
        × (d.begun ≡ d.frames.begun) };
}

impl Drawn {
    /// No value is known, and no instant is begun.
    pub fn new(
        alloc: Global,
        first: u32,
        grid: &Grid,
        plane: u32,
        width: u8,
        decimals: u8,
    ) -> Result<Drawn, OutOfMemory>
        requires { CanDraw grid.now plane width decimals }
        ensures { IfOk result (λ d. d ≡ showing_none first (record {
          space = grid.now;
          plane = plane;
          width = width;
          decimals = decimals;
        })) }
    {
        let frames = Frames::new(alloc, grid, plane, width, decimals)?;
        Ok(Drawn {
            first,
            cells: grid.cells(),
            begun: None,
            frames,
        })
    }

    /// The leaf number of the first cell of the group.
    pub fn first(&self) -> u32
        ensures { result ≡ self.now.first }
    {
        self.first
    }

    /// The number of its cells.
    pub fn cells(&self) -> u32
        ensures { result ≡ cell_count self.now.drawing.picture.space }
    {
        self.cells
    }

    /// A cell of the group has this value before anything is shown.
    pub fn preset(&mut self, cell: u32, value: Value)
        requires begun { self.old.drawing.begun ≡ None }
        requires inside { cell < cell_count self.old.drawing.picture.space }
        ensures { self.new ≡ with_drawing (with_value cell value self.old.drawing) self.old }
    {
        self.frames.preset(cell, value);
    }

    /// Whether an instant was begun that is another than this.
    pub(crate) fn has_begun_before(&self, at: Time) -> bool
        ensures { result ≡ is_other self.now.drawing.begun at }
    {
        match self.begun {
            None => false,
            Some(t) => t.ms() != at.ms(),
        }
    }

    /// Takes what records of this instant show of the group.
    pub(crate) fn take(&mut self, at: Time, given: &[YRecord])
        requires { ForSome self.old.drawing.begun (λ t. t ≡ at) }
        ensures { self.new ≡ took at (map plain given.now) self.old }
    {
        for one in given {
            self.take_one(at, one);
        }
    }

    /// Takes what a record of this instant shows of the group.
    fn take_one(&mut self, at: Time, given: &YRecord)
        requires { ForSome self.old.drawing.begun (λ t. t ≡ at) }
        ensures value { self.new ≡ with_taken (shown_of self.old at (plain given.now)) self.old }
        ensures begun { ForSome self.new.drawing.begun (λ t. t ≡ at) }
    {
        if given.leaf < self.first || self.cells <= given.leaf - self.first {
            return;
        }
        self.frames
            .take(given.leaf - self.first, at, given.value.get());
        self.begun = Some(at);
    }

    /// Appends the frame of the instant that was begun, if any, and ends that instant. Where memory
    /// is refused, all stays as it was.
    pub(crate) fn finish(&mut self, into: &mut Vec<u8>) -> Result<(), OutOfMemory>
        ensures text { OnOk result (into.new.items ≡ into.old.items ++ frame_of self.old.drawing) }
        ensures ended { OnOk result (self.new ≡ showing_after_instant self.old) }
        ensures err { OnErr result (into.new.items ≡ into.old.items) }
        ensures unchanged { OnErr result (self.new ≡ self.old) }
    {
        self.frames.finish(into)?;
        self.begun = None;
        Ok(())
    }
}
