// The state of a leaf, read from its line and put into the run.
ghost use Rattle.std.specs.Prelude.{◌≡◌, ◌<◌, None, length, IfOk, IfSome, IsTrue};
ghost use Rattle.std.specs.Option.{option_map};
ghost use Rattle.atomic_face.specs.Held.{Held};
ghost use Rattle.model_leaves.specs.Leaves.{IsLeafOf};
ghost use Rattle.run_model.specs.Cycle.{box_state};
ghost use Rattle.run_model.specs.Fitting.{Fits, OfLeaf};
ghost use Rattle.text_forms.specs.LeafStates.{is_later};
ghost use Rattle.sparse_cycle.specs.Sparse.{leaf_of};
ghost use Rattle.run_leaves.specs.Seated.{is_box};
ghost use Rattle.run_leaves.specs.Standing.{tree_in};
ghost use Rattle.state_lines.specs.Parts.{parts_of};
ghost use Rattle.state_file.specs.Taken.{CanTake, IsBoxPut, IsCellOf, IsNext, IsTaken};

use atomic_face::{AtomicModel, RestoreRefusal};
use flat_run::FlatRun;
use model_leaves::LeafAt;
use quantity::{OutOfMemory, Time};
use source_text::cut::part_before;
use state_lines::compare::{cell_in_line, numbers_in_line};
use state_lines::sizes::CellSize;
use std::alloc::Global;
use time_queue::TimeQueue;

/// Puts the state of a leaf that the line in front of a text gives, where all waits for times after
/// this one, and answers what stands behind the line. None where that is no line of such a state;
/// what the leaf has then is not said.
pub(crate) fn take_line<'a, Q: TimeQueue, M: AtomicModel>(
    alloc: Global,
    text: &'a [u8],
    t: Time,
    sizes: &[CellSize],
    leaf: u32,
    run: &mut FlatRun<Q, M>,
    scratch: &mut Vec<u8>,
) -> Result<Option<&'a [u8]>, OutOfMemory>
    requires { CanTake run.old sizes.now leaf }
    ensures read { IfOk result (λ left. OfLeaf (tree_in run.old) leaf (IsNext t leaf
        (parts_of text.now) run.old run.new (option_map (λ behind. parts_of behind.now) left))) }
    ensures shorter { IfOk result (λ left. IfSome left
        (λ behind. length behind.now < length text.now)) }
{
    let Some((line, behind)) = part_before(b'\n', text) else {
        return Ok(None);
    };
    let taken = take_leaf(alloc, line, t, sizes, leaf, run, scratch)?;
    if taken { Ok(Some(behind)) } else { Ok(None) }
}

/// Puts the state that a line gives. Whether it gives one.
fn take_leaf<Q: TimeQueue, M: AtomicModel>(
    alloc: Global,
    line: &[u8],
    t: Time,
    sizes: &[CellSize],
    leaf: u32,
    run: &mut FlatRun<Q, M>,
    scratch: &mut Vec<u8>,
) -> Result<bool, OutOfMemory>
    requires { CanTake run.old sizes.now leaf }
    ensures { IfOk result (λ taken. OfLeaf (tree_in run.old) leaf
        (IsTaken t line.now leaf run.old run.new taken)) }
{
    match run.model().leaf_at(leaf) {
        LeafAt::Cell { group, cell: _ } => {
            let size = sizes[group as usize];
            take_cell(alloc, line, t, size, leaf, run, scratch)
        }
        LeafAt::Atomic(_) => take_box(alloc, line, t, leaf, run, scratch),
    }
}

/// The same of a cell whose group has so many ports and variables.
fn take_cell<Q: TimeQueue, M: AtomicModel>(
    alloc: Global,
    line: &[u8],
    t: Time,
    size: CellSize,
    leaf: u32,
    run: &mut FlatRun<Q, M>,
    scratch: &mut Vec<u8>,
) -> Result<bool, OutOfMemory>
    requires fresh { (run.old.state.last ≡ None) × (run.old.stopped ≡ None) }
    requires leaf { IsLeafOf run.old.model leaf }
    requires cell { OfLeaf (tree_in run.old) leaf (IsCellOf size) }
    ensures { IfOk result (λ taken. OfLeaf (tree_in run.old) leaf
        (IsTaken t line.now leaf run.old run.new taken)) }
{
    let (ports, variables) = (size.ports, size.variables);
    let found = cell_in_line(alloc, run.model(), leaf, ports, variables, t, line, scratch)?;
    let Some(state) = found else {
        return Ok(false);
    };
    run.put_cell(leaf, &state)?;
    Ok(true)
}

/// The same of a box.
fn take_box<Q: TimeQueue, M: AtomicModel>(
    alloc: Global,
    line: &[u8],
    t: Time,
    leaf: u32,
    run: &mut FlatRun<Q, M>,
    scratch: &mut Vec<u8>,
) -> Result<bool, OutOfMemory>
    requires fresh { (run.old.state.last ≡ None) × (run.old.stopped ≡ None) }
    requires leaf { IsLeafOf run.old.model leaf }
    requires fits { OfLeaf (tree_in run.old) leaf (λ l.
        Fits l (leaf_of run.old.state.leaf_states leaf)) }
    requires boxed { IsTrue (is_box (leaf_of run.old.state.leaf_states leaf)) }
    ensures { IfOk result (λ taken. OfLeaf (tree_in run.old) leaf
        (IsTaken t line.now leaf run.old run.new taken)) }
{
    let found = numbers_in_line(alloc, run.model(), leaf, line, scratch)?;
    let Some(numbers) = found else {
        return Ok(false);
    };
    put_numbers(t, leaf, &numbers, run)
}

/// Puts the state of a box that these numbers are, where it is one and waits for times after this
/// one. Whether it is and does; where it doesn't wait so, what the box has is not said.
fn put_numbers<Q: TimeQueue, M: AtomicModel>(
    t: Time,
    leaf: u32,
    numbers: &[i64],
    run: &mut FlatRun<Q, M>,
) -> Result<bool, OutOfMemory>
    requires fresh { (run.old.state.last ≡ None) × (run.old.stopped ≡ None) }
    requires boxed { IsTrue (is_box (leaf_of run.old.state.leaf_states leaf)) }
    ensures { IfOk result (λ put. (b : Held) → leaf_of run.old.state.leaf_states leaf ≡ box_state b
        → IsBoxPut t leaf b numbers.now run.old run.new put) }
{
    match run.put_box(leaf, numbers) {
        Ok(()) => Ok(is_after(t, run.box_next(leaf))),
        Err(RestoreRefusal::BadState) => Ok(false),
        Err(RestoreRefusal::Memory) => Err(OutOfMemory),
    }
}

/// Whether a next time, if there is one, is after this time.
fn is_after(t: Time, next: Option<Time>) -> bool
    ensures { result ≡ is_later t next }
{
    match next {
        None => true,
        Some(next) => t.ms() < next.ms(),
    }
}
