// What is told of the state of a run of either kind.
ghost use Rattle.std.specs.Prelude.{◌≡◌, ◌+◌, ◌<◌, None, IfOk, IsTrue, length};
ghost use Rattle.sparse_cycle.specs.Sparse.{leaf_of};
ghost use Rattle.run_leaves.specs.Saved.{is_cell_state};
ghost use Rattle.run_loop.specs.Emitted.{given_by};

use atomic_face::AtomicModel;
use cell_engine::Steps;
use flat_run::FlatRun;
use quantity::{OutOfMemory, Time, Value};
use run_loop::StateTeller;
use state_file::save_state;
use std::sync::ledger::Ledger;
use time_queue::TimeQueue;
use tree_serve::ServedRun;

/// Tells of a flat run.
pub(crate) struct FlatTeller;

impl<Q: TimeQueue, M: AtomicModel, L: Ledger> StateTeller<FlatRun<Q, M>, L> for FlatTeller {
    fn emitted(
        &self,
        run: &FlatRun<Q, M>,
        leaf: u32,
        steps: &mut Steps<L>,
    ) -> Result<Value, OutOfMemory> {
        last_emitted(run, leaf, steps)
    }

    fn save(
        &self,
        run: &FlatRun<Q, M>,
        at: Time,
        into: &mut Vec<u8>,
        steps: &mut Steps<L>,
    ) -> Result<(), OutOfMemory> {
        save_state(run, at, into, steps)
    }
}

/// Tells nothing of a run whose messages are served in an order.
pub(crate) struct ServedTeller;

impl<M: AtomicModel, L: Ledger> StateTeller<ServedRun<M>, L> for ServedTeller {
    fn emitted(
        &self,
        _run: &ServedRun<M>,
        _leaf: u32,
        steps: &mut Steps<L>,
    ) -> Result<Value, OutOfMemory> {
        steps.count(1);
        Err(OutOfMemory)
    }

    fn save(
        &self,
        _run: &ServedRun<M>,
        _at: Time,
        _into: &mut Vec<u8>,
        _steps: &mut Steps<L>,
    ) -> Result<(), OutOfMemory> {
        Err(OutOfMemory)
    }
}

/// The value that a cell of a flat run emitted last.
fn last_emitted<Q: TimeQueue, M: AtomicModel, L: Ledger>(
    run: &FlatRun<Q, M>,
    leaf: u32,
    steps: &mut Steps<L>,
) -> Result<Value, OutOfMemory>
    requires goes { run.now.stopped ≡ None }
    requires cell { IsTrue (is_cell_state (leaf_of run.now.state.leaf_states leaf)) }
    requires within { leaf < length run.now.state.leaf_states }
    ensures value { IfOk result (λ v. v ≡ given_by run.now.state.leaf_states leaf) }
    ensures visits { steps.new ≡ steps.old + 1 }
{
    let state = run.cell_state(leaf, steps)?;
    match state.ports.first() {
        None => Ok(Value::Undefined),
        Some(port) => Ok(port.emitted),
    }
}
