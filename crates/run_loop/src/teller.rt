// What is told of the state of a run, so that another may go on from it.
use cell_engine::Steps;
use quantity::{OutOfMemory, Time, Value};
use run_leaves::Cycles;
use std::sync::ledger::Ledger;

/// Tells of the state of a run, so that another goes on from it. Of one whose messages are served in
/// an order no state is kept: it answers as where there is no memory, and those that ask have a
/// condition (`unserved`) by which it is never asked.
pub trait StateTeller<C: Cycles<L>, L: Ledger> {
    ghost use Rattle.std.specs.Prelude.{◌≡◌, ◌+◌, ◌<◌, ◌≤◌, ◌++◌, None, IfOk, OnOk, IsTrue, length};
    ghost use Rattle.run_model.specs.Fitting.{FitsTree};
    ghost use Rattle.sparse_cycle.specs.Sparse.{leaf_of};
    ghost use Rattle.run_leaves.specs.Saved.{is_cell_state};
    ghost use Rattle.run_leaves.specs.Standing.{tree_in, text_of_run};
    ghost use Rattle.run_loop.specs.Emitted.{given_by};

    /// The value that a cell emitted last. It takes one visit.
    fn emitted(&self, run: &C, leaf: u32, steps: &mut Steps<L>) -> Result<Value, OutOfMemory>
        requires goes { (C.standing run.now).stopped ≡ None }
        requires cell { IsTrue
            (is_cell_state (leaf_of (C.standing run.now).state.leaf_states leaf)) }
        requires within { leaf < length (C.standing run.now).state.leaf_states }
        ensures value { IfOk result
            (λ v. v ≡ given_by (C.standing run.now).state.leaf_states leaf) }
        ensures visits { steps.new ≡ steps.old + 1 };

    /// Appends the text of the state in which the run stands, at this time. It takes at most one
    /// visit a leaf.
    fn save(
        &self,
        run: &C,
        at: Time,
        into: &mut Vec<u8>,
        steps: &mut Steps<L>,
    ) -> Result<(), OutOfMemory>
        requires goes { (C.standing run.now).stopped ≡ None }
        requires fits { let s = C.standing run.now in FitsTree (tree_in s) s.state.leaf_states }
        ensures text { OnOk result (into.new.items ≡ into.old.items
            ++ text_of_run (C.standing run.now) at) }
        ensures visits { steps.new
            ≤ steps.old + length (C.standing run.now).state.leaf_states };
}
