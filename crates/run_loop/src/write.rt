// Bytes for one of the files.
ghost use Rattle.std.specs.Prelude.{◌≡◌};
ghost use Rattle.std.specs.Result.{IsOk, OnOk};
ghost use Rattle.quantity.specs.Bytes.{Bytes};
ghost use Rattle.run_loop.specs.AskedFiles.{names_of};
ghost use Rattle.run_loop.specs.Texts.{AreApart, AreCreated};
ghost use Rattle.run_loop.specs.Held.{WritesPiece};

use crate::outputs::{Output, Unwritten, name_of};
use asked_words::Asked;
use quantity::OutOfMemory;
use room_edge::{Room, WriteAll, write_all};

/// Adds a piece to one of the files, where there was memory to fill it.
///
/// # Errors
///
/// `Fault` where the file could not be written, `Memory` where memory ran out, also where there was
/// none to fill the piece: the file has a beginning of it.
pub(crate) fn write_piece<R: Room>(
    room: &mut R,
    asked: &Asked<'_>,
    file: Output,
    filled: Result<(), OutOfMemory>,
    piece: &[u8],
) -> Result<(), Unwritten>
    requires apart { AreApart (names_of asked.now) }
    requires created { AreCreated (names_of asked.now) (R.outside room.old).created }
    // For the bytes that it is filled with.
    ensures texts { (bytes : Bytes) → OnOk filled (piece.now ≡ bytes)
        → WritesPiece asked.now file bytes (R.outside room.old) (R.outside room.new) result }
    ensures filled { OnOk result (IsOk filled) }
    ensures created { (R.outside room.new).created ≡ (R.outside room.old).created }
{
    match filled {
        Ok(()) => write_to(room, asked, file, piece),
        Err(_) => Err(Unwritten::Memory),
    }
}

/// Adds bytes to one of the files, where it is made. They are handed over in one piece.
fn write_to<R: Room>(
    room: &mut R,
    asked: &Asked<'_>,
    file: Output,
    piece: &[u8],
) -> Result<(), Unwritten>
    requires apart { AreApart (names_of asked.now) }
    requires created { AreCreated (names_of asked.now) (R.outside room.old).created }
    ensures { WritesPiece asked.now file piece.now (R.outside room.old)
        (R.outside room.new) result }
{
    let Some(name) = name_of(asked, file) else {
        return Ok(());
    };
    match write_all(room, name, piece) {
        Ok(()) => Ok(()),
        Err(WriteAll::WriteFault(_)) => Err(Unwritten::Fault(file)),
        Err(WriteAll::Memory(_)) => Err(Unwritten::Memory),
    }
}
