// A run goes on, cycle by cycle, and each cycle is written.
ghost use Rattle.std.specs.Prelude.{◌≡◌, ◌+◌, ◌<◌, ◌≤◌, ◌^◌, None, IfOk, IsTrue};
ghost use Rattle.std.specs.Bool.{OnTrue};
ghost use Rattle.std.specs.Option.{is_some};
ghost use Rattle.run_model.specs.Visits.{visits};
ghost use Rattle.answer_model.specs.Visits.{state_visits};
ghost use Rattle.run_leaves.specs.Standing.{tree_in};
ghost use Rattle.run_leaves.specs.Steps.{Keeps};
ghost use Rattle.run_loop.specs.AskedFiles.{names_of};
ghost use Rattle.run_loop.specs.Texts.{AreApart, AreCreated};
ghost use Rattle.run_loop.specs.DoneIn.{DoneIn};
ghost use Rattle.run_loop.specs.Left.{rest_of, HaveValues, IsFitTo};
ghost use Rattle.run_loop.specs.Marked.{IsMarked};
ghost use Rattle.run_loop.specs.Ran.{asking_of, RunsTo, RunsWhole};
ghost use Rattle.run_loop.specs.Leaves.{spent_between};
ghost use Rattle.run_loop.specs.Stopping.{StopsAs};

use crate::cycle::write_last;
use crate::ending::Ending;
use crate::going::{Going, write_next};
use crate::outputs::Unwritten;
use crate::saved::write_saved;
use crate::teller::StateTeller;
use asked_words::Asked;
use cell_engine::Steps;
use room_edge::Room;
use run_leaves::{Cycles, Progress};
use run_model::Stop;
use std::sync::ledger::Ledger;

/// Runs at most so many cycles, and writes each, and at the end the last frame and, where the run is
/// done and it is to be saved, the state in which it is left. A cycle that is due after them is one
/// too many.
///
/// # Errors
///
/// `Fault` where a file could not be written, `Memory` where memory ran out: the files have the
/// first pieces of the cycles that were begun, in their order, and of one piece maybe a beginning.
pub(crate) fn run_all<R: Room, C: Cycles<L>, T: StateTeller<C, L>, L: Ledger>(
    room: &mut R,
    asked: &Asked<'_>,
    going: &mut Going,
    run: &mut C,
    teller: &T,
    most: u64,
    steps: &mut Steps<L>,
) -> Result<Ending, Unwritten>
    requires apart { AreApart (names_of asked.now) }
    requires created { AreCreated (names_of asked.now) (R.outside room.old).created }
    requires goes { (C.standing run.old).stopped ≡ None }
    requires few { going.old.cycles + most < 2 ^ 64 }
    requires values { HaveValues (tree_in (C.standing run.old)) }
    requires fit { IsFitTo most (C.standing run.old) }
    requires unserved { (IsTrue (is_some asked.now.given.save) → C.marking run.old ≡ None) }
    ensures runs { let s = C.standing run.old in
        RunsWhole (asking_of asked.now s)
        (rest_of most s) going.old going.new (R.outside room.old) (R.outside room.new)
        (spent_between C.is_counted steps.old steps.new) result }
    ensures keeps { Keeps (C.standing run.old) (C.standing run.new) }
    // The mark is that of all cycles, where the run is done.
    ensures marked { IfOk result (λ ending. IsMarked ending most (C.standing run.old)
        (C.marking run.old) (C.marking run.new)) }
    ensures visits { let s = C.standing run.old in
        OnTrue C.is_counted (steps.new ≤ steps.old + visits (tree_in s) (rest_of most s)
        + state_visits (names_of asked.now).state (tree_in s)) }
{
    let ending = run_cycles(room, asked, going, run, most, steps)?;
    write_last(room, asked, &mut going.drawn, &mut going.piece)?;
    write_saved(room, asked, &ending, run, teller, &mut going.piece, steps)?;
    Ok(ending)
}

/// The same without the last frame and the state, whichever way the cycles are made.
fn run_cycles<R: Room, C: Cycles<L>, L: Ledger>(
    room: &mut R,
    asked: &Asked<'_>,
    going: &mut Going,
    run: &mut C,
    most: u64,
    steps: &mut Steps<L>,
) -> Result<Ending, Unwritten>
    requires apart { AreApart (names_of asked.now) }
    requires created { AreCreated (names_of asked.now) (R.outside room.old).created }
    requires goes { (C.standing run.old).stopped ≡ None }
    requires few { going.old.cycles + most < 2 ^ 64 }
    requires values { HaveValues (tree_in (C.standing run.old)) }
    requires fit { IsFitTo most (C.standing run.old) }
    ensures runs { let s = C.standing run.old in
        RunsTo (asking_of asked.now s)
        (rest_of most s) going.old going.new (R.outside room.old) (R.outside room.new)
        (spent_between C.is_counted steps.old steps.new) result }
    ensures keeps { Keeps (C.standing run.old) (C.standing run.new) }
    ensures left { DoneIn result (rest_of most (C.standing run.old)).left (C.standing run.new) }
    ensures marked { IfOk result (λ ending. IsMarked ending most (C.standing run.old)
        (C.marking run.old) (C.marking run.new)) }
    ensures visits { let s = C.standing run.old in
        OnTrue C.is_counted (steps.new ≤ steps.old + visits (tree_in s) (rest_of most s)) }
{
    let mut left = most;
    'cycles: loop {
        let progress = match run.cycle(&mut going.records, steps) {
            Ok(progress) => progress,
            Err(stop) => return stopped_by(stop),
        };
        let at = match progress {
            Progress::Cycled(at) => at,
            Progress::Done => return Ok(Ending::Done),
        };
        if left == 0 {
            return Ok(Ending::Stopped(Stop::TooManyCycles(at)));
        }
        write_next(room, asked, going, run.model(), at)?;
        left -= 1;
    }
}

/// The run ended by this stop, or memory ran out.
fn stopped_by(stop: Stop) -> Result<Ending, Unwritten>
    ensures { StopsAs stop result }
{
    match stop {
        Stop::Memory => Err(Unwritten::Memory),
        _ => Ok(Ending::Stopped(stop)),
    }
}
