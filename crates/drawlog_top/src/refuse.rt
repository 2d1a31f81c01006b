// What is said of words and of a log that are refused.
ghost use Rattle.std.specs.Prelude.{◌≡◌, ◌++◌, IfOk, codes};
ghost use Rattle.text_forms.specs.Lines.{line_with_end};
ghost use Rattle.answer_model.specs.AskedDrawing.{drawing_usage};
ghost use Rattle.answer_model.specs.declared.status.Status.TheVariants.{LogRefused, Usage};
ghost use Rattle.answer_model.specs.Drawlog.{log_refused};
ghost use Rattle.answer_model.specs.Endings.{Says};

use asked_words::{Status, complain, drawing_usage_line};
use quantity::OutOfMemory;
use room_edge::Room;
use std::alloc::Global;

/// The line that names the first line that is refused, or 0 for a log that is too long.
fn refused_line(alloc: Global, line: u32) -> Result<Vec<u8>, OutOfMemory>
    ensures { IfOk result (λ text. text.items ≡ line_with_end (log_refused line)) }
{
    let mut text = b"log refused: line ".to_vec(alloc)?;
    text.extend_from_slice(line.to_string(alloc)?.as_bytes())?;
    text.extend_from_slice(b"\n")?;
    Ok(text)
}

/// Tells that the log is refused at a line.
pub(crate) fn refuse<R: Room>(alloc: Global, room: &mut R, line: u32) -> Status
    ensures { Says (line_with_end (log_refused line)) LogRefused
        (R.outside room.old) (R.outside room.new) result }
{
    let Ok(text) = refused_line(alloc, line) else {
        return Status::NoMemory;
    };
    complain(room, &text, Status::LogRefused)
}

/// Tells what words the program takes, as far as it can.
pub(crate) fn tell_usage<R: Room>(alloc: Global, room: &mut R) -> Status
    ensures { Says (line_with_end (codes "usage: " ++ drawing_usage)) Usage
        (R.outside room.old) (R.outside room.new) result }
{
    let Ok(line) = drawing_usage_line(alloc) else {
        return Status::NoMemory;
    };
    complain(room, &line, Status::Usage)
}
