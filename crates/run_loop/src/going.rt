// What changes while a run goes on.
ghost use Rattle.std.specs.Prelude.{◌≡◌, ◌+◌, ◌<◌, ◌^◌, OnOk};
ghost use Rattle.text_forms.specs.Named.{NamesLeaves};
ghost use Rattle.run_loop.specs.AskedFiles.{names_of};
ghost use Rattle.run_loop.specs.Texts.{AreApart, AreCreated};
ghost use Rattle.run_loop.specs.Counts.{CountsHeld};
ghost use Rattle.run_loop.specs.Held.{WritesHeld, DrawsHeld};

use crate::counted::{Counted, count};
use crate::cycle::write_cycle;
use crate::drawn::Drawn;
use crate::outputs::Unwritten;
use asked_words::Asked;
use model_leaves::Model;
use quantity::Time;
use room_edge::Room;
use text_forms::Records;

/// The frames that are drawn, what is counted for the last line, the number of cycles, and room
/// that each cycle uses again: its records, and the piece that is written.
#[derive(Drop)]
pub(crate) struct Going {
    pub(crate) drawn: Option<Drawn>,
    pub(crate) counted: Option<Counted>,
    pub(crate) cycles: u64,
    pub(crate) records: Records,
    pub(crate) piece: Vec<u8>,
}

/// Writes and counts the cycle whose records are held.
pub(crate) fn write_next<R: Room>(
    room: &mut R,
    asked: &Asked<'_>,
    going: &mut Going,
    model: &Model,
    at: Time,
) -> Result<(), Unwritten>
    requires apart { AreApart (names_of asked.now) }
    requires created { AreCreated (names_of asked.now) (R.outside room.old).created }
    requires leaves { NamesLeaves model.now going.old.records }
    requires few { going.old.cycles + 1 < 2 ^ 64 }
    ensures texts { WritesHeld asked.now model.now going.old.records at going.old.drawn
        (R.outside room.old) (R.outside room.new) result }
    ensures drawn { OnOk result (DrawsHeld going.old.records at going.old.drawn going.new.drawn) }
    ensures counted { OnOk result (CountsHeld going.old.records going.old.counted
        going.new.counted) }
    ensures cycles { OnOk result (going.new.cycles ≡ going.old.cycles + 1) }
{
    write_cycle(
        room,
        asked,
        &mut going.drawn,
        model,
        &going.records,
        at,
        &mut going.piece,
    )?;
    let Ok(()) = count(&mut going.counted, &going.records) else {
        return Err(Unwritten::Memory);
    };
    going.cycles += 1;
    Ok(())
}
