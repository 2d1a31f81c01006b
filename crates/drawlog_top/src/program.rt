// The drawing program.
ghost use Rattle.std.specs.Prelude.{◌≡◌, [], map, IfSome};
ghost use Rattle.std.specs.String.{string_bytes};
ghost use Rattle.frame_draw.specs.Drawing.{CanDraw};
ghost use Rattle.answer_model.specs.Endings.{looked_for, EndsWith};
ghost use Rattle.answer_model.specs.declared.status.Status.TheVariants.{ReadFault};
ghost use Rattle.answer_model.specs.FaultsAnswered.{AnswersFaults};
ghost use Rattle.answer_model.specs.LastPieces.{WritesNothing};
ghost use Rattle.answer_model.specs.OutcomeLaws.{EndsBy};
ghost use Rattle.answer_model.specs.Programs.{DrawlogEnds, DrawlogCauses};
ghost use Rattle.answer_model.specs.Status.{of_log};
ghost use Rattle.asked_words.specs.Shown.{asked_drawing_of};
ghost use Rattle.drawlog_top.specs.Ends.{answer_to_file};

use crate::draw::draw;
use crate::refuse::{refuse, tell_usage};
use asked_words::{AskedDrawing, Status, complain_named, read_drawing_words};
use quantity::MAX_LOG_BYTES;
use room_edge::{ReadWhole, Room, read_whole};
use std::alloc::Global;

// The most bytes that a log may have.
const MOST_BYTES: u32 = MAX_LOG_BYTES as u32;

// Reads the log and draws it.
fn draw_asked<R: Room>(alloc: Global, room: &mut R, asked: &AskedDrawing<'_>) -> Status
    requires { CanDraw asked.now.space asked.now.plane asked.now.width asked.now.decimals }
    ensures ends { IfSome (R.outside room.old).files
        (λ files. EndsWith (answer_to_file (asked_drawing_of asked.now) (files asked.now.log.now))
        (looked_for []) (R.outside room.old) (R.outside room.new) result) }
    ensures causes { EndsBy of_log (R.outside room.old) (R.outside room.new) result }
{
    match read_whole(alloc, room, asked.log, MOST_BYTES) {
        Ok(log) => draw(alloc, room, asked, &log),
        Err(ReadWhole::Missing) => complain_named(
            alloc,
            room,
            b"missing: ",
            asked.log,
            Status::Missing,
        ),
        Err(ReadWhole::ReadFault) => {
            complain_named(alloc, room, b"read fault: ", asked.log, Status::ReadFault)
        }
        Err(ReadWhole::TooLong(_)) => refuse(alloc, room, 0),
        Err(ReadWhole::Memory) => Status::NoMemory,
    }
}

/// Runs the drawing program for the words of a command line, of which the first is its name:
/// `drawlog -l LOG -g GROUP -s SIZE [-w WIDTH] [-p DECIMALS] [-f PLANE]`. Answers what a process
/// ends with: the frames are shown; the words are refused; the log is
/// missing; a read failed; a write failed; the log is refused; want of memory.
pub fn drawlog<R: Room>(alloc: Global, words: &[String], room: &mut R) -> Status
    // Where the files are told: the answer whole, or what a fault or want of memory leaves of it,
    // with the line of that fault.
    ensures ends { DrawlogEnds (map string_bytes words.now) (R.outside room.old)
        (R.outside room.new) result }
    // Over every room: each status only where its cause was counted, and that of refused words just
    // where they are refused and the complaint didn't fail.
    ensures causes { DrawlogCauses (map string_bytes words.now) (R.outside room.old)
        (R.outside room.new) result }
    ensures nothing { result ≡ ReadFault
        → WritesNothing (R.outside room.old) (R.outside room.new) }
    // Over every room: each fault that was counted shows in the status.
    ensures faults { AnswersFaults (R.outside room.old) (R.outside room.new) result }
{
    match read_drawing_words(alloc, words) {
        Ok(Some(asked)) => draw_asked(alloc, room, &asked),
        Ok(None) => tell_usage(alloc, room),
        Err(_) => Status::NoMemory,
    }
}
