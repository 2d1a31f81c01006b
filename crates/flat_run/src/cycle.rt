// One cycle of a run, over the run's parts.
ghost use Rattle.std.specs.Prelude.{◌≡◌, ◌+◌, ◌≤◌, [], Some, false, OnOk, OnErr, length, replicate, if◌then◌else◌};
ghost use Rattle.std.specs.List.{All};
ghost use Rattle.std.specs.Vec.{vec_capacity};
ghost use Rattle.quantity.specs.declared.bounds.TheConstants.{MAX_DELAY};
ghost use Rattle.atomic_face.specs.Classes.{is_at};
ghost use Rattle.event_list.specs.Events.{Event as AnyEvent};
ghost use Rattle.time_queue.specs.Waiting.{leaves_at, without};
ghost use Rattle.text_forms.specs.Held.{AreEmpty};
ghost use Rattle.sparse_cycle.specs.Feed.{inputs_at};
ghost use Rattle.flat_run.specs.Holds.{IsFrameOf, GoesOn};
ghost use Rattle.flat_run.specs.Running.{Runs, tree_by, parts_at, instant_of, later, visits_in};

use crate::parts::Parts;
use atomic_face::AtomicModel;
use cell_engine::Steps;
use cycle_steps::cycle::cycle_at;
use event_list::Events;
use leaf_set::LeafSet;
use quantity::{OutOfMemory, Time, Value};
use route_flat::Routes;
use run_model::Stop;
use std::sync::ledger::Ledger;
use text_forms::Records;
use time_queue::TimeQueue;

/// The cycle at the next instant: what is made of leaves, queue, events and records. It
/// takes no more visits than values are given and the touched leaves take, also where a leaf stops
/// or memory ends.
pub(crate) fn run_cycle<Q: TimeQueue, M: AtomicModel, L: Ledger>(
    parts: &mut Parts<M>,
    routes: &Routes,
    events: &mut Events,
    queue: &mut Q,
    t: Time,
    records: &mut Records,
    steps: &mut Steps<L>,
) -> Result<(), Stop>
    requires time { t ≤ MAX_DELAY }
    requires frame { IsFrameOf (tree_by parts.old.leaves) routes.now parts.old.watchers events.old
        (vec_capacity parts.old.work.due) (vec_capacity parts.old.work.moving) }
    requires stands { GoesOn (tree_by parts.old.leaves) parts.old.leaves
        (Q.waiting queue.old) parts.old.work.woken parts.old.work.touched }
    requires instant { instant_of parts.old.leaves.states events.old ≡ Some t }
    requires records { AreEmpty records.old }
    ensures runs { Runs t (parts_at parts.old.leaves events.old t) events.old
        parts.new.leaves.states (Q.waiting queue.new) events.new records.new result }
    ensures model { parts.new.leaves.model ≡ parts.old.leaves.model }
    ensures settings { parts.new.leaves.settings ≡ parts.old.leaves.settings }
    ensures frame { IsFrameOf (tree_by parts.old.leaves) routes.now parts.new.watchers events.new
        (vec_capacity parts.new.work.due) (vec_capacity parts.new.work.moving) }
    ensures stands { OnOk result (GoesOn (tree_by parts.old.leaves) parts.new.leaves
        (Q.waiting queue.new) parts.new.work.woken parts.new.work.touched) }
    ensures visits { steps.new ≤ steps.old
        + visits_in (tree_by parts.old.leaves) (parts_at parts.old.leaves events.old t) }
{
    sparse_cycle::laws::a_cycle_is_what_its_leaves_make_of_it();
    sparse_cycle::laws::leaves_move_one_after_another();
    run_model::laws::records_name_what_there_is();
    parts.leaves.moves_are_short();
    take_due(queue, t, &mut parts.work.due);
    let Ok(()) = take_inputs(events, t, &mut parts.work.inputs) else {
        return Err(Stop::Memory);
    };
    parts.work.moving.clear();
    match cycle_at(
        &mut parts.leaves,
        &parts.watchers,
        routes,
        queue,
        &mut parts.work,
        t,
        records,
        steps,
    ) {
        Ok(()) => {
            parts.work.woken.empty();
            Ok(())
        }
        Err(stop) => Err(stop),
    }
}

/// Puts the leaves that are due into a list, in place of what it holds, and they wait no more.
fn take_due<Q: TimeQueue>(queue: &mut Q, t: Time, due: &mut Vec<u32>)
    requires { length (Q.waiting queue.old) ≤ vec_capacity due.old }
    ensures taken { due.new.items ≡ leaves_at t (Q.waiting queue.old) }
    ensures left { Q.waiting queue.new ≡ without t (Q.waiting queue.old) }
    ensures capacity { vec_capacity due.new ≡ vec_capacity due.old }
{
    due.clear();
    queue.take_all_at(t, due);
}

/// Takes the events of the instant: puts their inputs and values into a list, in place of what it
/// holds.
fn take_inputs(
    events: &mut Events,
    t: Time,
    inputs: &mut Vec<(u16, Value)>,
) -> Result<(), OutOfMemory>
    requires { All (λ (e : AnyEvent). t ≤ e.time) events.old }
    ensures taken { OnOk result (inputs.new.items ≡ inputs_at t events.old) }
    ensures left { OnOk result (events.new ≡ later t events.old) }
    ensures err { OnErr result (events.new ≡ events.old) }
{
    inputs.clear();
    events.take(t, inputs)
}

/// How many cycles this instant has had.
pub(crate) fn cycles_had(last: Option<Time>, count: u32, t: Time) -> u32
    ensures { result ≡ (if is_at t last then count else 0) }
{
    let Some(at) = last else {
        return 0;
    };
    if at.ms() == t.ms() { count } else { 0 }
}
