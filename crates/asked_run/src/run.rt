// The run of what was read.
ghost use Rattle.std.specs.Prelude.{◌≡◌, IsTrue};
ghost use Rattle.room_edge.specs.Faults.{WriteFaultCounted};
ghost use Rattle.answer_model.specs.declared.status.Status.TheVariants.{WriteFault};
ghost use Rattle.answer_model.specs.Status.{of_run, IsOf};
ghost use Rattle.answer_model.specs.Visits.{is_counted};
ghost use Rattle.answer_model.specs.FaultsAnswered.{AnswersFaults};
ghost use Rattle.asked_words.specs.Shown.{asked_of};
ghost use Rattle.run_loop.specs.Answers.{MayRun};
ghost use Rattle.run_loop.specs.Marked.{IsOrdered};
ghost use Rattle.asked_run.specs.Stages.{EndsStarted, CostsStarted, LeavesStarted};
ghost use Rattle.asked_run.specs.Stages.{RunsStarted};
ghost use Rattle.asked_run.specs.Ways.{standing_in, marking_in};

use crate::start::Start;
use crate::teller::{FlatTeller, ServedTeller};
use crate::way::Way;
use asked_words::{Asked, GroupAt, Status};
use atomic_face::AtomicModel;
use cell_engine::Steps;
use room_edge::Room;
use run_leaves::{Cycles, Leave};
use run_loop::{StateTeller, run_and_tell};
use std::alloc::Global;
use std::sync::ledger::Ledger;

/// Runs what was read, and tells how that went.
pub fn run<R: Room, M: AtomicModel, L: Ledger>(
    alloc: Global,
    room: &mut R,
    start: Start<'_, M>,
    steps: &mut Steps<L>,
) -> Status
    requires may_run { MayRun start.asked start.drawn (standing_in start.run) }
    requires ordered { IsOrdered start.asked (marking_in start.run) }
    // Of what is started.
    ensures ends { EndsStarted start.entry.asked (standing_in start.entry.run)
        (R.outside room.old) (R.outside room.new) result }
    ensures known { IsOf of_run result }
    ensures write_fault { result ≡ WriteFault
        → WriteFaultCounted (R.outside room.old) (R.outside room.new) }
    // Each fault that was counted shows in the status.
    ensures faults { AnswersFaults (R.outside room.old) (R.outside room.new) result }
    // The visits that the reference run may cost, and those of a state that is read or saved, where
    // they are counted.
    ensures visits { CostsStarted start.entry.asked (standing_in start.entry.run)
        steps.old steps.new }
    // The files that the run leaves, and the visits of the cycles that were begun.
    ensures leaves { LeavesStarted start.entry.asked (standing_in start.entry.run)
        (R.outside room.old) (R.outside room.new) steps.old steps.new result }
{
    let Start { asked, drawn, run } = start;
    match run {
        Way::Flat(flat) => run_to_end(alloc, room, asked, drawn, flat, &FlatTeller, steps),
        Way::Served(served) => {
            run_to_end(alloc, room, asked, drawn, served, &ServedTeller, steps)
        }
    }
}

/// Runs a run of either kind, for what is asked.
fn run_to_end<R: Room, C: Cycles<L> + Leave, T: StateTeller<C, L>, L: Ledger>(
    alloc: Global,
    room: &mut R,
    asked: Asked<'_>,
    drawn: Option<GroupAt>,
    mut run: C,
    teller: &T,
    steps: &mut Steps<L>,
) -> Status
    requires may_run { MayRun asked drawn (C.standing run) }
    requires ordered { IsOrdered asked (C.marking run) }
    // The visits are bounded where they are counted.
    requires counted { (IsTrue (is_counted (asked_of asked)) → IsTrue C.is_counted) }
    ensures { RunsStarted asked.entry (C.standing run)
        (R.outside room.old) (R.outside room.new) steps.old steps.new result }
{
    let status = run_and_tell(alloc, room, &asked, drawn, &mut run, teller, steps);
    run.leave();
    status
}
