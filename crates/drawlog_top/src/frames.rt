// Frames that are drawn as a log goes on.
ghost use Rattle.std.specs.Prelude.{◌≡◌, ◌<◌, ◌++◌, IfOk, IfSome, OnOk};
ghost use Rattle.std.specs.Option.{ForSome};
ghost use Rattle.cell_grid.specs.Space.{cell_count};
ghost use Rattle.frame_draw.specs.Drawing.{frame_of, CanDraw};
ghost use Rattle.drawlog_top.specs.Seen.{shown_cell_list};
ghost use Rattle.drawlog_top.specs.SoFar.{nothing_drawn, finished_before, with_taken, with_all};

use crate::line::{CellValue, SeenLine};
use cell_grid::Grid;
use frame_draw::Frames;
use quantity::{OutOfMemory, Time};
use std::alloc::Global;
use std::marker::Model;

/// The text of the frames that are drawn, and what is shown behind them. It is seen as that text
/// and the frames that are being drawn.
#[derive(Drop)]
pub(crate) struct LogFrames {
    text: Vec<u8>,
    begun: Option<Time>,
    frames: Frames,
}

impl Model for LogFrames {
    ghost use Rattle.std.specs.Prelude.{◌≡◌};
    ghost use Rattle.drawlog_top.specs.SoFar.{SoFar};

    ghost Value = { SoFar };

    ghost view = { λ d. record { text = d.text.items; drawing = d.frames } };

    ghost invariant = { λ d. d.begun ≡ d.frames.begun };
}

impl LogFrames {
    /// Nothing is drawn, no value is known, and no instant is begun.
    pub(crate) fn new(
        alloc: Global,
        grid: &Grid,
        plane: u32,
        width: u8,
        decimals: u8,
    ) -> Result<LogFrames, OutOfMemory>
        requires { CanDraw grid.now plane width decimals }
        ensures { IfOk result (λ d. d ≡ nothing_drawn (record {
          space = grid.now;
          plane = plane;
          width = width;
          decimals = decimals;
        })) }
    {
        let frames = Frames::new(alloc, grid, plane, width, decimals)?;
        Ok(LogFrames {
            text: Vec::new(alloc),
            begun: None,
            frames,
        })
    }

    /// Takes what a line shows.
    pub(crate) fn take_line(&mut self, line: &SeenLine) -> Result<(), OutOfMemory>
        requires { IfSome line.now.given (λ g. g.cell < cell_count self.old.drawing.picture.space) }
        ensures { OnOk result
            (self.new ≡ with_all (shown_cell_list line.now.time line.now.given) self.old) }
    {
        match &line.given {
            None => Ok(()),
            Some(given) => self.take(line.time, given),
        }
    }

    /// Takes what a cell gave at an instant: the frame of another that was begun is drawn before.
    fn take(&mut self, at: Time, given: &CellValue) -> Result<(), OutOfMemory>
        requires { given.now.cell < cell_count self.old.drawing.picture.space }
        ensures { OnOk result (self.new ≡ with_taken (record {
          time = at;
          cell = given.now.cell;
          value = given.now.value;
        }) self.old) }
    {
        self.finish_before(at)?;
        self.frames.take(given.cell, at, given.value);
        self.begun = Some(at);
        Ok(())
    }

    /// Draws the frame of the instant that was begun, if any, where it is another than this.
    fn finish_before(&mut self, at: Time) -> Result<(), OutOfMemory>
        ensures frames { OnOk result (self.new ≡ finished_before at self.old) }
        ensures begun { OnOk result (ForSome self.new.drawing.begun (λ t. t ≡ at)) }
    {
        let Some(begun) = self.begun else {
            return Ok(());
        };
        if begun.ms() == at.ms() {
            return Ok(());
        }
        self.frames.finish(&mut self.text)?;
        self.begun = None;
        Ok(())
    }

    /// The text with the frame of the instant that was begun, if any.
    pub(crate) fn finish(self) -> Result<Vec<u8>, OutOfMemory>
        ensures { IfOk result (λ text. text.items ≡ self.text ++ frame_of self.drawing) }
    {
        let mut text = self.text;
        let mut frames = self.frames;
        frames.finish(&mut text)?;
        Ok(text)
    }
}
