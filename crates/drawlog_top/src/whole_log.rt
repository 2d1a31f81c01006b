// The frames of a log.
ghost use Rattle.std.specs.Prelude.{◌≡◌, ◌==◌, ◌<◌, ◌^◌, length};
ghost use Rattle.std.specs.List.{slice_split};
ghost use Rattle.quantity.specs.ByteNames.{line_feed};
ghost use Rattle.text_forms.specs.Frames.{frames_of_log};
ghost use Rattle.frame_draw.specs.Drawing.{CanDraw};
ghost use Rattle.drawlog_top.specs.Answered.{IsDrawn, IsReadTo};
ghost use Rattle.drawlog_top.specs.SoFar.{drawn_from};

use crate::frames::LogFrames;
use crate::line::see_line;
use crate::refusal::DrawRefusal;
use cell_grid::Grid;
use frame_draw::laws::frames_are_drawn_in_turn;
use quantity::{Name, Time};
use source_text::cut::part_before;
use std::alloc::Global;

/// The frames of a plane of a group of this name and space, drawn from a log: each value in `width`
/// places, 1 to 20, with at most 5 decimals. LogRefused is the first line that is off the form of a
/// log's lines, is before the time of the line above it, or gives a value of the group at
/// coordinates of no cell of the space, and the last one where it has no line end.
pub fn draw_log(
    alloc: Global,
    log: &[u8],
    grid: &Grid,
    group: &Name,
    plane: u32,
    width: u8,
    decimals: u8,
) -> Result<Vec<u8>, DrawRefusal>
    requires picture { CanDraw grid.now plane width decimals }
    requires short { length log.now < 2 ^ 32 }
    ensures { IsDrawn (frames_of_log (record {
      space = grid.now;
      plane = plane;
      width = width;
      decimals = decimals;
    }) group.now log.now) result }
{
    frames_are_drawn_in_turn();
    let mut frames = LogFrames::new(alloc, grid, plane, width, decimals)?;
    take_lines(&mut frames, log, grid, group)?;
    Ok(frames.finish()?)
}

/// Takes what the lines of a log show.
fn take_lines(
    frames: &mut LogFrames,
    log: &[u8],
    grid: &Grid,
    group: &Name,
) -> Result<(), DrawRefusal>
    requires space { frames.old.drawing.picture.space ≡ grid.now }
    requires short { length log.now < 2 ^ 32 }
    ensures { IsReadTo (drawn_from group.now 1 0 frames.old
        (slice_split (λ c. c == line_feed) log.now)) frames.new result }
{
    let mut before = first_time();
    let mut lines = 0;
    let mut left = log;
    while let Some((line, behind)) = part_before(b'\n', left) {
        let Some(seen) = see_line(line, before, grid, group) else {
            return Err(DrawRefusal::LogRefused(lines + 1));
        };
        frames.take_line(&seen)?;
        before = seen.time;
        lines += 1;
        left = behind;
    }
    if left.is_empty() {
        Ok(())
    } else {
        Err(DrawRefusal::LogRefused(lines + 1))
    }
}

/// The time that stands above the first line.
fn first_time() -> Time
    ensures { result ≡ 0 }
{
    match Time::new(0) {
        Some(time) => time,
        None => unreachable!(),
    }
}
