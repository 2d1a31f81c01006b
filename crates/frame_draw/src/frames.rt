// The frames of a run, instant by instant.
ghost use Rattle.std.specs.Prelude.{◌≡◌, ◌<◌, ◌++◌, Some, None, IfOk, OnOk, OnErr};
ghost use Rattle.std.specs.Option.{ForSome};
ghost use Rattle.cell_grid.specs.Space.{cell_count};
ghost use Rattle.frame_draw.specs.Drawing.{blank, frame_of, with_instant, with_value, CanDraw};

use crate::frame::put_frame;
use crate::plane::Plane;
use cell_grid::Grid;
use quantity::{OutOfMemory, Time, Value};
use std::alloc::Global;
use std::marker::Model;

/// The values of the cells of a group, and the instant that was begun. A frame shows the values at
/// the end of an instant.
#[derive(Drop)]
pub struct Frames {
    plane: Plane,
    values: Vec<Value>,
    begun: Option<Time>,
}

impl Model for Frames {
    ghost use Rattle.std.specs.Prelude.{◌≡◌, length};
    ghost use Rattle.cell_grid.specs.Space.{cell_count};
    ghost use Rattle.frame_draw.specs.Drawing.{DrawingState, CanDraw};

    ghost Value = { DrawingState };

    ghost view = { λ f. record {
      picture = record {
        space = f.plane.grid;
        plane = f.plane.plane;
        width = f.plane.width;
        decimals = f.plane.decimals;
      };
      values = f.values.items;
      begun = f.begun;
    } };

    ghost invariant = { λ f. CanDraw f.plane.grid f.plane.plane f.plane.width f.plane.decimals
        × (length f.values.items ≡ cell_count f.plane.grid) };
}

impl Frames {
    /// Frames of a plane of a space, each value in `width` places, 1 to 20, with at most 5
    /// decimals. No value is known and no instant is begun.
    pub fn new(
        alloc: Global,
        grid: &Grid,
        plane: u32,
        width: u8,
        decimals: u8,
    ) -> Result<Frames, OutOfMemory>
        requires { CanDraw grid.now plane width decimals }
        ensures { IfOk result (λ f. f ≡ blank (record {
          space = grid.now;
          plane = plane;
          width = width;
          decimals = decimals;
        })) }
    {
        let values = vec![in alloc; Value::Undefined; grid.cells() as usize]?;
        let plane = Plane {
            grid: *grid,
            plane,
            width,
            decimals,
        };
        Ok(Frames {
            plane,
            values,
            begun: None,
        })
    }

    /// A cell has this value before the first instant. The others stay.
    pub fn preset(&mut self, cell: u32, value: Value)
        requires begun { self.old.begun ≡ None }
        requires inside { cell < cell_count self.old.picture.space }
        ensures { self.new ≡ with_value cell value self.old }
    {
        self.values[cell as usize] = value;
    }

    /// A cell gave this value at the instant `at`, which is the one that was begun, if any, and is
    /// begun now. It takes no memory.
    pub fn take(&mut self, cell: u32, at: Time, value: Value)
        requires begun { ForSome self.old.begun (λ t. t ≡ at) }
        requires inside { cell < cell_count self.old.picture.space }
        ensures { self.new ≡ with_instant (Some at) (with_value cell value self.old) }
    {
        self.values[cell as usize] = value;
        self.begun = Some(at);
    }

    /// Appends the frame of the instant that was begun, if any, and ends that instant. Where memory
    /// is refused, all stays as it was.
    pub fn finish(&mut self, into: &mut Vec<u8>) -> Result<(), OutOfMemory>
        ensures text { OnOk result (into.new.items ≡ into.old.items ++ frame_of self.old) }
        ensures ended { OnOk result (self.new ≡ with_instant None self.old) }
        ensures err { OnErr result (into.new.items ≡ into.old.items) }
        ensures unchanged { OnErr result (self.new ≡ self.old) }
    {
        let Some(at) = self.begun else {
            return Ok(());
        };
        let before = into.len();
        if let Err(refused) = put_frame(&self.plane, &self.values, at, into) {
            into.truncate(before);
            return Err(refused);
        }
        self.begun = None;
        Ok(())
    }
}
