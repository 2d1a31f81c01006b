// Over a room that never fails, what comes is the answer.
ghost use Rattle.std.specs.Prelude.{◌≡◌, ◌⊎◌, map, IfSome};
ghost use Rattle.std.specs.String.{string_bytes};
ghost use Rattle.room_edge.specs.Sure.{sure_outside};
ghost use Rattle.answer_model.specs.declared.status.Status.TheVariants.{NoMemory};
ghost use Rattle.answer_model.specs.Drawlog.{drawing_answer};
ghost use Rattle.answer_model.specs.Headline.{Writes};

use crate::program::drawlog;
use asked_words::Status;
use room_edge::SureRoom;
use std::alloc::Global;

/// Runs the drawing program over a room that never fails: what comes is the answer, but for want of
/// memory.
pub fn drawlog_surely(alloc: Global, words: &[String], room: &mut SureRoom) -> Status
    ensures { IfSome (sure_outside room.old).files (λ files. (result ≡ NoMemory)
        ⊎ Writes (drawing_answer (map string_bytes words.now) files) (sure_outside room.old)
        (sure_outside room.new) result) }
{
    drawlog(alloc, words, room)
}
