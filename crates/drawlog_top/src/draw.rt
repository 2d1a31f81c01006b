// A log that was read is drawn.
ghost use Rattle.std.specs.Prelude.{◌≤◌, [], ◌∷◌, length};
ghost use Rattle.quantity.specs.declared.bounds.TheConstants.{MAX_LOG_BYTES};
ghost use Rattle.frame_draw.specs.Drawing.{CanDraw};
ghost use Rattle.answer_model.specs.Drawlog.{drawn_answer};
ghost use Rattle.answer_model.specs.OutcomeLaws.{EndsBy};
ghost use Rattle.answer_model.specs.Status.{of_drawing};
ghost use Rattle.answer_model.specs.Endings.{looked_for, EndsWith};
ghost use Rattle.asked_words.specs.Shown.{asked_drawing_of};

use crate::refusal::DrawRefusal;
use crate::refuse::refuse;
use crate::whole_log::draw_log;
use asked_words::{AskedDrawing, Status, show};
use room_edge::Room;
use std::alloc::Global;

/// Draws the frames of a log and shows them, or tells that it is refused.
pub(crate) fn draw<R: Room>(
    alloc: Global,
    room: &mut R,
    asked: &AskedDrawing<'_>,
    log: &[u8],
) -> Status
    requires picture { CanDraw asked.now.space asked.now.plane asked.now.width asked.now.decimals }
    requires short { length log.now ≤ MAX_LOG_BYTES }
    ensures ends { EndsWith
        (drawn_answer (asked_drawing_of asked.now) log.now (asked.now.log.now ∷ []))
        (looked_for (asked.now.log.now ∷ [])) (R.outside room.old) (R.outside room.new) result }
    ensures causes { EndsBy of_drawing (R.outside room.old) (R.outside room.new) result }
{
    match draw_log(
        alloc,
        log,
        &asked.space,
        &asked.group,
        asked.plane,
        asked.width,
        asked.decimals,
    ) {
        Ok(frames) => show(alloc, room, &frames),
        Err(DrawRefusal::LogRefused(line)) => refuse(alloc, room, line),
        Err(DrawRefusal::Memory) => Status::NoMemory,
    }
}
