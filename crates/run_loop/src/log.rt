// The log lines of a cycle, of which the first are handed over before the others are put.
ghost use Rattle.std.specs.Prelude.{◌≡◌, OnOk};
ghost use Rattle.quantity.specs.Bytes.{Bytes};
ghost use Rattle.text_forms.specs.Named.{NamesLeaves};
ghost use Rattle.run_loop.specs.declared.outputs.Output.TheVariants.{Log as log};
ghost use Rattle.run_loop.specs.AskedFiles.{names_of};
ghost use Rattle.run_loop.specs.Texts.{AreApart, AreCreated};
ghost use Rattle.run_loop.specs.Handing.{HandsLetter, HandsOver};
ghost use Rattle.run_loop.specs.Held.{WritesLines};

use crate::outputs::{Output, Unwritten, name_of};
use crate::write::write_piece;
use asked_words::Asked;
use model_leaves::Model;
use quantity::OutOfMemory;
use room_edge::Room;
use text_forms::{Letter, Records, letter_bytes};

/// So many bytes are handed over before others are put behind them.
const LONG: usize = 1_048_576;

/// Adds the lines of a cycle to the log. Those of a letter are handed over first where they are
/// many, so that never all lines of a cycle stand in memory at once.
pub(crate) fn write_log<R: Room>(
    room: &mut R,
    asked: &Asked<'_>,
    model: &Model,
    records: &Records,
    piece: &mut Vec<u8>,
) -> Result<(), Unwritten>
    requires apart { AreApart (names_of asked.now) }
    requires created { AreCreated (names_of asked.now) (R.outside room.old).created }
    requires leaves { NamesLeaves model.now records.now }
    ensures texts { WritesLines asked.now model.now records.now log
        (R.outside room.old) (R.outside room.new) result }
    ensures created { (R.outside room.new).created ≡ (R.outside room.old).created }
{
    if name_of(asked, Output::Log).is_none() {
        return Ok(());
    }
    piece.clear();
    write_letter(room, asked, Letter::Y, model, records, piece)?;
    write_letter(room, asked, Letter::N, model, records, piece)?;
    write_letter(room, asked, Letter::X, model, records, piece)?;
    let filled = letter_bytes(Letter::S, records, &asked.given.letters, model, piece);
    write_piece(room, asked, Output::Log, filled, piece)
}

/// Puts the lines of a letter behind those that are left, and hands them over where they are many.
fn write_letter<R: Room>(
    room: &mut R,
    asked: &Asked<'_>,
    letter: Letter,
    model: &Model,
    records: &Records,
    piece: &mut Vec<u8>,
) -> Result<(), Unwritten>
    requires apart { AreApart (names_of asked.now) }
    requires created { AreCreated (names_of asked.now) (R.outside room.old).created }
    requires leaves { NamesLeaves model.now records.now }
    ensures hands { HandsLetter asked.now model.now records.now letter
        piece.old.items piece.new.items (R.outside room.old) (R.outside room.new) result }
    ensures created { (R.outside room.new).created ≡ (R.outside room.old).created }
{
    let filled = letter_bytes(letter, records, &asked.given.letters, model, piece);
    hand_over(room, asked, filled, piece)
}

/// Hands a piece over where it is long and there was memory to fill it.
fn hand_over<R: Room>(
    room: &mut R,
    asked: &Asked<'_>,
    filled: Result<(), OutOfMemory>,
    piece: &mut Vec<u8>,
) -> Result<(), Unwritten>
    requires apart { AreApart (names_of asked.now) }
    requires created { AreCreated (names_of asked.now) (R.outside room.old).created }
    ensures hands { (bytes : Bytes) → OnOk filled (piece.old.items ≡ bytes) →
        HandsOver (names_of asked.now) bytes piece.new.items (R.outside room.old)
        (R.outside room.new) result }
    ensures created { (R.outside room.new).created ≡ (R.outside room.old).created }
{
    match filled {
        Ok(()) => hand_over_long(room, asked, piece),
        Err(_) => Err(Unwritten::Memory),
    }
}

/// Hands a piece over where it is long.
fn hand_over_long<R: Room>(
    room: &mut R,
    asked: &Asked<'_>,
    piece: &mut Vec<u8>,
) -> Result<(), Unwritten>
    requires apart { AreApart (names_of asked.now) }
    requires created { AreCreated (names_of asked.now) (R.outside room.old).created }
    ensures hands { HandsOver (names_of asked.now) piece.old.items piece.new.items
        (R.outside room.old) (R.outside room.new) result }
    ensures created { (R.outside room.new).created ≡ (R.outside room.old).created }
{
    if piece.len() < LONG {
        return Ok(());
    }
    write_piece(room, asked, Output::Log, Ok(()), piece)?;
    piece.clear();
    Ok(())
}
