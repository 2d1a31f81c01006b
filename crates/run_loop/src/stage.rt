// All of the program after its inputs are read.
ghost use Rattle.std.specs.Prelude.{◌≡◌, ◌+◌, ◌≤◌, ℕ, Option};
ghost use Rattle.std.specs.Bool.{OnTrue};
ghost use Rattle.room_edge.specs.Faults.{WriteFaultCounted};
ghost use Rattle.answer_model.specs.declared.status.Status.TheVariants.{WriteFault};
ghost use Rattle.answer_model.specs.Status.{of_run, IsOf};
ghost use Rattle.answer_model.specs.FaultsAnswered.{AnswersFaults};
ghost use Rattle.asked_words.specs.declared.group.GroupAt.{GroupAt};
ghost use Rattle.asked_words.specs.Shown.{asked_of};
ghost use Rattle.run_leaves.specs.Standing.{tree_in};
ghost use Rattle.run_loop.specs.Answers.{MayRun};
ghost use Rattle.run_loop.specs.Asked.{EndsAsAsked, LeavesAsAsked, asked_visits};
ghost use Rattle.run_loop.specs.Begins.{CountsNone, IsBegunAt, IsDrawnAtStart};
ghost use Rattle.run_loop.specs.Marked.{IsOrdered};
ghost use Rattle.run_loop.specs.Leaves.{spent_between};

use crate::begin::{begin, most_cycles};
use crate::create::create_files;
use crate::ending::tell_ending;
use crate::going::Going;
use crate::laws::runs_are_fit;
use crate::run::run_all;
use crate::tell::tell_unwritten;
use crate::teller::StateTeller;
use asked_words::{Asked, GroupAt, Status};
use cell_engine::Steps;
use room_edge::Room;
use run_leaves::Cycles;
use std::alloc::Global;
use std::sync::ledger::Ledger;

/// Makes the log, the output, the file of frames and that of the state at the end, runs a model to
/// its end, from the start or from a saved state, whichever way its cycles are made, and tells how
/// that went: all of the program after its inputs are read.
///
/// Answers what a process ends with: `Done` where the run came to its end, and then its state is
/// saved, if that is asked for; `NoTrueRule`, `Overflow`, `BadDelay` or `TooManyCycles` where it
/// stopped before; `WriteFault` where a file could not be made or written, or a line be told; and
/// `NoMemory` where memory ran out.
pub fn run_and_tell<R: Room, C: Cycles<L>, T: StateTeller<C, L>, L: Ledger>(
    alloc: Global,
    room: &mut R,
    asked: &Asked<'_>,
    drawn: Option<GroupAt>,
    run: &mut C,
    teller: &T,
    steps: &mut Steps<L>,
) -> Status
    requires may_run { MayRun asked.now drawn (C.standing run.old) }
    requires ordered { IsOrdered asked.now (C.marking run.old) }
    // With the files that were looked for.
    ensures ends { EndsAsAsked asked.now (C.standing run.old)
        (R.outside room.old) (R.outside room.new) result }
    ensures known { IsOf of_run result }
    ensures write_fault { result ≡ WriteFault
        → WriteFaultCounted (R.outside room.old) (R.outside room.new) }
    // Each fault that was counted shows in the status.
    ensures faults { AnswersFaults (R.outside room.old) (R.outside room.new) result }
    // The files that it leaves, with pieces in their order, and the visits of the cycles begun; where
    // a write failed, the file that is named, behind which nothing is written and no cycle is begun.
    ensures leaves { LeavesAsAsked asked.now (C.standing run.old)
        (R.outside room.old) (R.outside room.new)
        (spent_between C.is_counted steps.old steps.new) result }
    // The visits that the reference run may cost, and those of a state that is read or saved.
    ensures visits { OnTrue C.is_counted
        (steps.new ≤ steps.old + asked_visits asked.now (C.standing run.old)) }
{
    let Ok(mut going) = begin(alloc, asked, drawn, run, teller, steps) else {
        return Status::NoMemory;
    };
    run_begun(alloc, room, asked, &mut going, run, teller, steps)
}

/// The same for a run that is begun. Visits of the state that it goes on from were counted before.
fn run_begun<R: Room, C: Cycles<L>, T: StateTeller<C, L>, L: Ledger>(
    alloc: Global,
    room: &mut R,
    asked: &Asked<'_>,
    going: &mut Going,
    run: &mut C,
    teller: &T,
    steps: &mut Steps<L>,
) -> Status
    requires may_run { (drawn : Option GroupAt) × MayRun asked.now drawn (C.standing run.old) }
    requires ordered { IsOrdered asked.now (C.marking run.old) }
    requires drawn { IsDrawnAtStart asked.now (C.standing run.old) going.old.drawn }
    requires counted { CountsNone (asked_of asked.now) (tree_in (C.standing run.old)) going.old }
    ensures ends { EndsAsAsked asked.now (C.standing run.old)
        (R.outside room.old) (R.outside room.new) result }
    ensures known { IsOf of_run result }
    ensures write_fault { result ≡ WriteFault
        → WriteFaultCounted (R.outside room.old) (R.outside room.new) }
    ensures faults { AnswersFaults (R.outside room.old) (R.outside room.new) result }
    ensures leaves { (before : ℕ) → IsBegunAt asked.now (C.standing run.old) before steps.old
        → LeavesAsAsked asked.now (C.standing run.old)
        (R.outside room.old) (R.outside room.new)
        (spent_between C.is_counted before steps.new) result }
    ensures visits { (before : ℕ) → IsBegunAt asked.now (C.standing run.old) before steps.old
        → OnTrue C.is_counted
        (steps.new ≤ before + asked_visits asked.now (C.standing run.old)) }
{
    runs_are_fit();
    match create_files(room, asked) {
        Ok(()) => {}
        Err(unmade) => return tell_unwritten(alloc, room, asked, unmade),
    }
    let most = most_cycles(asked.end, asked.given.limit);
    match run_all(room, asked, going, run, teller, most, steps) {
        Ok(ending) => tell_ending(alloc, room, asked, run.model(), going, run.mark(), ending),
        Err(why) => tell_unwritten(alloc, room, asked, why),
    }
}
