// The text of the state of a run.
ghost use Rattle.std.specs.Prelude.{◌≡◌, ◌+◌, ◌<◌, ◌≤◌, ◌++◌, None, length, take};
ghost use Rattle.std.specs.Prelude.{IsTrue, OnOk, OnErr};
ghost use Rattle.model_tree.specs.Tree.{leaves};
ghost use Rattle.model_leaves.specs.Leaves.{IsLeafOf};
ghost use Rattle.run_model.specs.Fitting.{FitsTree};
ghost use Rattle.text_forms.specs.StateText.{leaf_line};
ghost use Rattle.sparse_cycle.specs.Sparse.{leaf_of};
ghost use Rattle.run_leaves.specs.Seated.{is_box};
ghost use Rattle.run_leaves.specs.Saved.{is_cell_state};
ghost use Rattle.run_leaves.specs.Standing.{tree_in, text_of_run};
ghost use Rattle.state_file.specs.Lines.{head_of, lines_of_run, AddsLine, AddsEndedLine};

use atomic_face::AtomicModel;
use cell_engine::Steps;
use flat_run::FlatRun;
use model_leaves::LeafAt;
use quantity::{OutOfMemory, Time, put};
use state_lines::leaf_line::{put_box, put_cell};
use std::sync::ledger::Ledger;
use time_queue::TimeQueue;

/// Appends the text of the state in which a run stands, with this time: a line for each leaf, in
/// declared order, each written from the one before on. A cell takes one visit, a box none. Where
/// memory is refused, `into` stays as it was.
pub fn save_state<Q: TimeQueue, M: AtomicModel, L: Ledger>(
    run: &FlatRun<Q, M>,
    at: Time,
    into: &mut Vec<u8>,
    steps: &mut Steps<L>,
) -> Result<(), OutOfMemory>
    requires goes { run.now.stopped ≡ None }
    requires fits { FitsTree (tree_in run.now) run.now.state.leaf_states }
    ensures ok { OnOk result (into.new.items ≡ into.old.items ++ text_of_run run.now at) }
    ensures err { OnErr result (into.new.items ≡ into.old.items) }
    ensures visits { steps.new ≤ steps.old + length run.now.state.leaf_states }
{
    let before = into.len();
    let done = put_state(run, at, into, steps);
    if done.is_err() {
        into.truncate(before);
    }
    done
}

/// The same; a refusal may leave more behind what was there.
fn put_state<Q: TimeQueue, M: AtomicModel, L: Ledger>(
    run: &FlatRun<Q, M>,
    at: Time,
    into: &mut Vec<u8>,
    steps: &mut Steps<L>,
) -> Result<(), OutOfMemory>
    requires goes { run.now.stopped ≡ None }
    requires fits { FitsTree (tree_in run.now) run.now.state.leaf_states }
    ensures ok { OnOk result (into.new.items ≡ into.old.items ++ text_of_run run.now at) }
    ensures kept { take (length into.old.items) into.new.items ≡ into.old.items }
    ensures visits { steps.new ≤ steps.old + length run.now.state.leaf_states }
{
    put_head(at, into)?;
    put_lines(run, into, steps)?;
    put(b"end\n", into)
}

/// Appends the lines in front of those of leaves: that of the form, and that of the time.
fn put_head(at: Time, into: &mut Vec<u8>) -> Result<(), OutOfMemory>
    ensures ok { OnOk result (into.new.items ≡ into.old.items ++ head_of at) }
    ensures kept { take (length into.old.items) into.new.items ≡ into.old.items }
{
    put(b"state 1\nat ", into)?;
    at.text(into)?;
    put(b"\n", into)
}

/// Appends the lines of all leaves.
fn put_lines<Q: TimeQueue, M: AtomicModel, L: Ledger>(
    run: &FlatRun<Q, M>,
    into: &mut Vec<u8>,
    steps: &mut Steps<L>,
) -> Result<(), OutOfMemory>
    requires goes { run.now.stopped ≡ None }
    requires fits { FitsTree (tree_in run.now) run.now.state.leaf_states }
    ensures ok { OnOk result (into.new.items ≡ into.old.items ++ lines_of_run run.now) }
    ensures kept { take (length into.old.items) into.new.items ≡ into.old.items }
    ensures visits { steps.new ≤ steps.old + length run.now.state.leaf_states }
{
    for leaf in 0..run.model().leaves() {
        put_line(run, leaf, into, steps)?;
    }
    Ok(())
}

/// Appends the line of a leaf.
fn put_line<Q: TimeQueue, M: AtomicModel, L: Ledger>(
    run: &FlatRun<Q, M>,
    leaf: u32,
    into: &mut Vec<u8>,
    steps: &mut Steps<L>,
) -> Result<(), OutOfMemory>
    requires goes { run.now.stopped ≡ None }
    requires fits { FitsTree (tree_in run.now) run.now.state.leaf_states }
    requires leaf { IsLeafOf run.now.model leaf }
    ensures ok { OnOk result (AddsEndedLine run.now leaf into.old.items into.new.items) }
    ensures kept { take (length into.old.items) into.new.items ≡ into.old.items }
    ensures visits { steps.new ≤ steps.old + 1 }
{
    put_text(run, leaf, into, steps)?;
    put(b"\n", into)
}

/// Appends the line of a leaf, without its end.
fn put_text<Q: TimeQueue, M: AtomicModel, L: Ledger>(
    run: &FlatRun<Q, M>,
    leaf: u32,
    into: &mut Vec<u8>,
    steps: &mut Steps<L>,
) -> Result<(), OutOfMemory>
    requires goes { run.now.stopped ≡ None }
    requires fits { FitsTree (tree_in run.now) run.now.state.leaf_states }
    requires leaf { IsLeafOf run.now.model leaf }
    ensures ok { OnOk result (AddsLine run.now leaf into.old.items into.new.items) }
    ensures kept { take (length into.old.items) into.new.items ≡ into.old.items }
    ensures visits { steps.new ≤ steps.old + 1 }
{
    match run.model().leaf_at(leaf) {
        LeafAt::Cell { group: _, cell: _ } => put_cell_of(run, leaf, into, steps),
        LeafAt::Atomic(_) => put_box_of(run, leaf, into),
    }
}

/// Appends the line of a cell, without its end.
fn put_cell_of<Q: TimeQueue, M: AtomicModel, L: Ledger>(
    run: &FlatRun<Q, M>,
    leaf: u32,
    into: &mut Vec<u8>,
    steps: &mut Steps<L>,
) -> Result<(), OutOfMemory>
    requires goes { run.now.stopped ≡ None }
    requires leaf { IsLeafOf run.now.model leaf }
    requires cell { IsTrue (is_cell_state (leaf_of run.now.state.leaf_states leaf)) }
    requires within { leaf < length run.now.state.leaf_states }
    ensures ok { OnOk result (AddsLine run.now leaf into.old.items into.new.items) }
    ensures kept { take (length into.old.items) into.new.items ≡ into.old.items }
    ensures visits { steps.new ≡ steps.old + 1 }
{
    let state = run.cell_state(leaf, steps)?;
    put_cell(leaf, run.model(), &state, into)
}

/// Appends the line of a box, without its end.
fn put_box_of<Q: TimeQueue, M: AtomicModel>(
    run: &FlatRun<Q, M>,
    leaf: u32,
    into: &mut Vec<u8>,
) -> Result<(), OutOfMemory>
    requires goes { run.now.stopped ≡ None }
    requires leaf { IsLeafOf run.now.model leaf }
    requires boxed { IsTrue (is_box (leaf_of run.now.state.leaf_states leaf)) }
    ensures ok { OnOk result (AddsLine run.now leaf into.old.items into.new.items) }
    ensures kept { take (length into.old.items) into.new.items ≡ into.old.items }
{
    let words = run.box_state(leaf)?;
    put_box(leaf, run.model(), &words, into)
}
