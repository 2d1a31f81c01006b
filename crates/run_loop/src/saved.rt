// The state in which a run is left.
ghost use Rattle.std.specs.Prelude.{◌≡◌, ◌+◌, ◌≤◌, None, IsTrue};
ghost use Rattle.std.specs.Option.{is_some};
ghost use Rattle.run_model.specs.Fitting.{FitsTree};
ghost use Rattle.run_model.specs.Run.{Run};
ghost use Rattle.answer_model.specs.RunFiles.{saved_text};
ghost use Rattle.answer_model.specs.Visits.{state_visits};
ghost use Rattle.run_leaves.specs.Standing.{tree_in, text_of_run};
ghost use Rattle.run_loop.specs.declared.outputs.Output.TheVariants.{State as state};
ghost use Rattle.run_loop.specs.AskedFiles.{names_of};
ghost use Rattle.run_loop.specs.Texts.{AreApart, AreCreated};
ghost use Rattle.run_loop.specs.Written.{Writes};
ghost use Rattle.run_loop.specs.Saving.{LeftIn, Saves};
ghost use Rattle.run_loop.specs.Held.{WritesPiece};

use crate::ending::Ending;
use crate::outputs::{Output, Unwritten};
use crate::teller::StateTeller;
use crate::write::write_piece;
use asked_words::Asked;
use cell_engine::Steps;
use room_edge::Room;
use run_leaves::Cycles;
use std::sync::ledger::Ledger;

/// Writes the state in which a run is left, where it is done and its state is to be saved; else
/// nothing. `piece` is room that it uses again.
///
/// # Errors
///
/// `Fault` where the file could not be written, `Memory` where memory ran out: it has a beginning of
/// the state.
pub(crate) fn write_saved<R: Room, C: Cycles<L>, T: StateTeller<C, L>, L: Ledger>(
    room: &mut R,
    asked: &Asked<'_>,
    ending: &Ending,
    run: &C,
    teller: &T,
    piece: &mut Vec<u8>,
    steps: &mut Steps<L>,
) -> Result<(), Unwritten>
    requires apart { AreApart (names_of asked.now) }
    requires created { AreCreated (names_of asked.now) (R.outside room.old).created }
    // Where the run is done it goes on, its states fit the model, and where it is to be saved its
    // messages have no order of service.
    requires left { LeftIn ending.now (is_some asked.now.given.save) (C.marking run.now)
        (C.standing run.now) }
    // For a run that has ended so and was left as it stands.
    ensures texts { let s = C.standing run.now in (r : Run) → Saves ending.now r s
        → WritesPiece asked.now state (saved_text asked.now.end (tree_in s) r)
        (R.outside room.old) (R.outside room.new) result }
    ensures visits { steps.new ≤ steps.old
        + state_visits (names_of asked.now).state (tree_in (C.standing run.now)) }
{
    match ending {
        Ending::Done => write_state(room, asked, run, teller, piece, steps),
        Ending::Stopped(_) => Ok(()),
    }
}

/// Writes the state in which a run stands, where it is to be saved.
fn write_state<R: Room, C: Cycles<L>, T: StateTeller<C, L>, L: Ledger>(
    room: &mut R,
    asked: &Asked<'_>,
    run: &C,
    teller: &T,
    piece: &mut Vec<u8>,
    steps: &mut Steps<L>,
) -> Result<(), Unwritten>
    requires apart { AreApart (names_of asked.now) }
    requires created { AreCreated (names_of asked.now) (R.outside room.old).created }
    requires goes { (C.standing run.now).stopped ≡ None }
    requires fits { let s = C.standing run.now in FitsTree (tree_in s) s.state.leaf_states }
    requires unserved { (IsTrue (is_some asked.now.given.save) → C.marking run.now ≡ None) }
    ensures texts { WritesPiece asked.now state (text_of_run
        (C.standing run.now) asked.now.end) (R.outside room.old) (R.outside room.new) result }
    ensures visits { steps.new ≤ steps.old
        + state_visits (names_of asked.now).state (tree_in (C.standing run.now)) }
{
    if asked.given.save.is_none() {
        return Ok(());
    }
    piece.clear();
    let filled = teller.save(run, asked.end, piece, steps);
    write_piece(room, asked, Output::State, filled, piece)
}
