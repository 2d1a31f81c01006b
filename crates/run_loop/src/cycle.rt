// What a cycle adds to the files.
ghost use Rattle.std.specs.Prelude.{◌≡◌, map, OnOk};
ghost use Rattle.std.specs.Option.{option_map};
ghost use Rattle.text_forms.specs.Named.{NamesLeaves};
ghost use Rattle.run_loop.specs.declared.outputs.Output.TheVariants.{Frames as frames, Out as out};
ghost use Rattle.run_loop.specs.AskedFiles.{names_of};
ghost use Rattle.run_loop.specs.Texts.{AreApart, AreCreated};
ghost use Rattle.run_loop.specs.Held.{WritesHeld, WritesLines, WritesPiece, DrawsHeld};
ghost use Rattle.run_loop.specs.Showing.{took, plain, showing_after_instant, ended_before, is_begun_before};
ghost use Rattle.run_loop.specs.Showing.{frame_before, last_frame, BeginsAt};

use crate::drawn::Drawn;
use crate::log::write_log;
use crate::outputs::{Output, Unwritten, name_of};
use crate::write::write_piece;
use asked_words::Asked;
use model_leaves::Model;
use quantity::{OutOfMemory, Time};
use room_edge::Room;
use text_forms::{Records, YRecord, out_bytes};

/// Adds what a cycle gave, in this order: the frame of the instant before, where this one begins
/// another; the lines of the log; and the lines of the output. `piece` is room that each call uses
/// again.
///
/// # Errors
///
/// `Fault` where a file could not be written: those before it have all of this cycle, it has a
/// beginning of its piece and lacks the rest, and those behind it have nothing of this cycle.
/// `Memory` where memory ran out, at some place of that order.
pub(crate) fn write_cycle<R: Room>(
    room: &mut R,
    asked: &Asked<'_>,
    drawn: &mut Option<Drawn>,
    model: &Model,
    records: &Records,
    at: Time,
    piece: &mut Vec<u8>,
) -> Result<(), Unwritten>
    requires apart { AreApart (names_of asked.now) }
    requires created { AreCreated (names_of asked.now) (R.outside room.old).created }
    requires leaves { NamesLeaves model.now records.now }
    // For the cycle whose records these are.
    ensures texts { WritesHeld asked.now model.now records.now at drawn.old
        (R.outside room.old) (R.outside room.new) result }
    ensures drawn { OnOk result (DrawsHeld records.now at drawn.old drawn.new) }
{
    write_before(room, asked, drawn, at, piece)?;
    take(drawn, at, &records.y);
    write_log(room, asked, model, records, piece)?;
    write_out(room, asked, model, records, piece)
}

/// Adds the frame of the instant that was begun, where a run ends.
///
/// # Errors
///
/// `Fault` where the file of frames could not be written, `Memory` where memory ran out: it has a
/// beginning of the frame.
pub fn write_last<R: Room>(
    room: &mut R,
    asked: &Asked<'_>,
    drawn: &mut Option<Drawn>,
    piece: &mut Vec<u8>,
) -> Result<(), Unwritten>
    requires apart { AreApart (names_of asked.now) }
    requires created { AreCreated (names_of asked.now) (R.outside room.old).created }
    ensures texts { WritesPiece asked.now frames (last_frame drawn.old)
        (R.outside room.old) (R.outside room.new) result }
    ensures drawn { OnOk result (drawn.new ≡ option_map showing_after_instant drawn.old) }
{
    let filled = draw_last(drawn, piece);
    write_piece(room, asked, Output::Frames, filled, piece)
}

/// The frame of the instant that was begun stands in `piece`, and that instant is over.
fn draw_last(drawn: &mut Option<Drawn>, piece: &mut Vec<u8>) -> Result<(), OutOfMemory>
    ensures text { OnOk result (piece.new.items ≡ last_frame drawn.old) }
    ensures drawn { OnOk result (drawn.new ≡ option_map showing_after_instant drawn.old) }
{
    piece.clear();
    match drawn {
        None => Ok(()),
        Some(drawn) => drawn.finish(piece),
    }
}

/// Adds the frame of an instant that is over, where this one begins another.
fn write_before<R: Room>(
    room: &mut R,
    asked: &Asked<'_>,
    drawn: &mut Option<Drawn>,
    at: Time,
    piece: &mut Vec<u8>,
) -> Result<(), Unwritten>
    requires apart { AreApart (names_of asked.now) }
    requires created { AreCreated (names_of asked.now) (R.outside room.old).created }
    ensures texts { WritesPiece asked.now frames (frame_before at drawn.old)
        (R.outside room.old) (R.outside room.new) result }
    ensures drawn { OnOk result (drawn.new ≡ option_map (ended_before at) drawn.old) }
{
    if has_begun_before(drawn, at) {
        write_last(room, asked, drawn, piece)
    } else {
        Ok(())
    }
}

/// Whether an instant was begun that is another than this.
fn has_begun_before(drawn: &Option<Drawn>, at: Time) -> bool
    ensures { result ≡ is_begun_before at drawn.now }
{
    match drawn {
        None => false,
        Some(drawn) => drawn.has_begun_before(at),
    }
}

/// Adds the lines of a cycle to the output.
fn write_out<R: Room>(
    room: &mut R,
    asked: &Asked<'_>,
    model: &Model,
    records: &Records,
    piece: &mut Vec<u8>,
) -> Result<(), Unwritten>
    requires apart { AreApart (names_of asked.now) }
    requires created { AreCreated (names_of asked.now) (R.outside room.old).created }
    ensures texts { WritesLines asked.now model.now records.now out
        (R.outside room.old) (R.outside room.new) result }
    ensures created { (R.outside room.new).created ≡ (R.outside room.old).created }
{
    if name_of(asked, Output::Out).is_none() {
        return Ok(());
    }
    piece.clear();
    let filled = out_bytes(records, model, piece);
    write_piece(room, asked, Output::Out, filled, piece)
}

/// Takes what a cycle shows of the group that is drawn.
fn take(drawn: &mut Option<Drawn>, at: Time, given: &[YRecord])
    requires { BeginsAt at drawn.old }
    ensures { drawn.new ≡ option_map (took at (map plain given.now)) drawn.old }
{
    if let Some(drawn) = drawn {
        drawn.take(at, given);
    }
}
