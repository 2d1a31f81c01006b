// A run goes on from a saved state, which is read line after line from its text.
ghost use Rattle.std.specs.Prelude.{◌≡◌, ◌<◌, ◌^◌, None, IfOk, IsTrue, length};
ghost use Rattle.model_tree.specs.Sound.{is_sound_model};
ghost use Rattle.model_tree.specs.Tree.{leaves};
ghost use Rattle.run_model.specs.Fitting.{FitsTree};
ghost use Rattle.text_forms.specs.StateOf.{state_of};
ghost use Rattle.run_leaves.specs.Standing.{tree_in};
ghost use Rattle.state_lines.specs.Sizes.{AreSizesOf};
ghost use Rattle.state_file.specs.Loads.{with_time, Loads, TakesText, states_by};
ghost use Rattle.state_file.specs.Taken.{AreTaken};

use crate::leaf::take_line;
use atomic_face::AtomicModel;
use flat_run::FlatRun;
use quantity::{MAX_LOG_BYTES, OutOfMemory, Time};
use run_leaves::Leave;
use state_lines::parts::{behind_line, end_refused, time_line};
use state_lines::sizes::{CellSize, cell_sizes};
use std::alloc::Global;
use text_forms::StateRefusal;
use time_queue::TimeQueue;

/// Reads the text of a saved state: the run, before its first cycle, goes on from it with the
/// events after its time, which is answered. A refusal gives the run up. `TooLarge`, at line 0,
/// comes for a text of more than `MAX_LOG_BYTES` bytes; `BadStateLine` for the first line that is
/// not of the form for its place, is no state of its leaf that waits for later times, is missing,
/// or follows the end; `EndBefore` for a time after `end`; `Memory` where memory is refused.
pub fn load_state<Q: TimeQueue, M: AtomicModel>(
    alloc: Global,
    bytes: &[u8],
    run: FlatRun<Q, M>,
    end: Time,
) -> Result<(FlatRun<Q, M>, Time), StateRefusal>
    requires fresh { (run.state.last ≡ None) × (run.stopped ≡ None) × (run.state.count ≡ 0) }
    requires fits { FitsTree (tree_in run) run.state.leaf_states }
    requires sound { IsTrue (is_sound_model (tree_in run)) }
    ensures { Loads run (state_of bytes.now (tree_in run) end) result }
{
    let mut run = run;
    match take_text(alloc, bytes, &mut run, end) {
        Ok(time) => Ok((run, time)),
        Err(refusal) => {
            run.leave();
            Err(refusal)
        }
    }
}

/// The run goes on from the state of a text, whose time is answered. Where the text is refused, how
/// the run stands is not said.
fn take_text<Q: TimeQueue, M: AtomicModel>(
    alloc: Global,
    bytes: &[u8],
    run: &mut FlatRun<Q, M>,
    end: Time,
) -> Result<Time, StateRefusal>
    requires fresh { (run.old.state.last ≡ None) × (run.old.stopped ≡ None)
        × (run.old.state.count ≡ 0) }
    requires fits { FitsTree (tree_in run.old) run.old.state.leaf_states }
    requires sound { IsTrue (is_sound_model (tree_in run.old)) }
    ensures { TakesText run.old run.new (state_of bytes.now (tree_in run.old) end) result }
{
    if bytes.len() > MAX_LOG_BYTES {
        return Err(StateRefusal::TooLarge(0));
    }
    let Some(behind) = behind_line(b"state 1", bytes) else {
        return Err(StateRefusal::BadStateLine(1));
    };
    let Some(head) = time_line(behind) else {
        return Err(StateRefusal::BadStateLine(2));
    };
    if end.ms() < head.0.ms() {
        return Err(StateRefusal::EndBefore(2));
    }
    go_on(alloc, head.1, head.0, run)
}

/// The run goes on from the states that the lines of the leaves give, with the events after this
/// time, which is answered.
fn go_on<Q: TimeQueue, M: AtomicModel>(
    alloc: Global,
    lines: &[u8],
    time: Time,
    run: &mut FlatRun<Q, M>,
) -> Result<Time, StateRefusal>
    requires fresh { (run.old.state.last ≡ None) × (run.old.stopped ≡ None)
        × (run.old.state.count ≡ 0) }
    requires fits { FitsTree (tree_in run.old) run.old.state.leaf_states }
    requires sound { IsTrue (is_sound_model (tree_in run.old)) }
    requires short { length lines.now < 2 ^ 30 }
    ensures { TakesText run.old run.new (with_time time (states_by time run.old lines.now)) result }
{
    let Ok(refused) = take_leaves(alloc, lines, time, run) else {
        return Err(StateRefusal::Memory);
    };
    if let Some(line) = refused {
        return Err(StateRefusal::BadStateLine(line));
    }
    run.skip(time);
    Ok(time)
}

/// The leaves have the states of their lines, which are the third and those behind it, in declared
/// order; all waits for times after this one. Else the number of the first line that is refused.
fn take_leaves<Q: TimeQueue, M: AtomicModel>(
    alloc: Global,
    text: &[u8],
    t: Time,
    run: &mut FlatRun<Q, M>,
) -> Result<Option<u32>, OutOfMemory>
    requires fresh { (run.old.state.last ≡ None) × (run.old.stopped ≡ None) }
    requires fits { FitsTree (tree_in run.old) run.old.state.leaf_states }
    requires sound { IsTrue (is_sound_model (tree_in run.old)) }
    requires short { length text.now < 2 ^ 30 }
    ensures { IfOk result (λ refused. AreTaken run.old run.new
        (states_by t run.old text.now) refused) }
{
    let sizes = cell_sizes(alloc, run.model())?;
    take_lines(alloc, text, t, &sizes, run)
}

/// The same, where the groups have these sizes.
fn take_lines<Q: TimeQueue, M: AtomicModel>(
    alloc: Global,
    text: &[u8],
    t: Time,
    sizes: &[CellSize],
    run: &mut FlatRun<Q, M>,
) -> Result<Option<u32>, OutOfMemory>
    requires fresh { (run.old.state.last ≡ None) × (run.old.stopped ≡ None) }
    requires fits { FitsTree (tree_in run.old) run.old.state.leaf_states }
    requires sound { IsTrue (is_sound_model (tree_in run.old)) }
    requires sizes { AreSizesOf run.old.model sizes.now }
    requires short { length text.now < 2 ^ 30 }
    ensures { IfOk result (λ refused. AreTaken run.old run.new
        (states_by t run.old text.now) refused) }
{
    let count = run.model().leaves();
    let mut scratch = Vec::new(alloc);
    let mut left = text;
    for leaf in 0..count {
        let Some(behind) = take_line(alloc, left, t, sizes, leaf, run, &mut scratch)? else {
            return Ok(Some(leaf + 3));
        };
        left = behind;
    }
    Ok(end_refused(left, count + 3))
}
