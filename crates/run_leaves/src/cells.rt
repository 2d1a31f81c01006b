// What one cell gives, and how it moves.
ghost use Rattle.std.specs.Prelude.{◌≡◌, ℕ, ◌+◌, ◌<◌, ◌≤◌, ◌++◌, Some, [], ◌∷◌, length, OnOk, OnErr};
ghost use Rattle.std.specs.List.{All};
ghost use Rattle.quantity.specs.declared.bounds.TheConstants.{MAX_DELAY};
ghost use Rattle.quantity.specs.declared.value.Value.{Value as AnyValue};
ghost use Rattle.quantity.specs.declared.value.Value.TheVariants.{Undefined};
ghost use Rattle.atomic_face.specs.declared.class.PortNo.{PortNo as AnyPort};
ghost use Rattle.run_model.specs.CellStep.{cell_next, cell_emitted, cell_output};
ghost use Rattle.cell_table.specs.Told.{cell_at, OnlyCell};
ghost use Rattle.cell_engine.specs.Cells.{with_cell_state, computed_at, Computes};
ghost use Rattle.run_leaves.specs.Seated.{HasPort};
ghost use Rattle.run_leaves.specs.Moving.{OfItsGroup, MovesCell};

use atomic_face::PortNo;
use cell_engine::{CellStore, Computed, Steps};
use cycle_steps::told::Told;
use quantity::{Name, OutOfMemory, Time, Value};
use run_model::LeafStop;
use std::sync::ledger::Ledger;

/// A cell that is due gives its values, which are appended. Where memory is refused, it has given
/// too, and nothing stands in the list.
#[inline(always)]
pub(crate) fn emit_cell<L: Ledger>(
    store: &mut CellStore,
    cell: u32,
    t: Time,
    into: &mut Vec<(PortNo, Value)>,
    steps: &mut Steps<L>,
) -> Result<(), OutOfMemory>
    requires within { cell < length store.old.cells }
    requires due { cell_next (cell_at store.old.cells cell) ≡ Some t }
    ensures given { OnOk result
        (into.new.items ≡ into.old.items ++ cell_output t (cell_at store.old.cells cell)) }
    ensures err { OnErr result (into.new.items ≡ []) }
    ensures cells { store.new
        ≡ with_cell_state store.old cell (cell_emitted t (cell_at store.old.cells cell)) }
    ensures visits { steps.new ≡ steps.old + 1 }
{
    let Ok(()) = store.emit_into(cell, t, into, steps) else {
        into.clear();
        return Err(OutOfMemory);
    };
    Ok(())
}

/// A cell after its emission moves: its computed value and its next time. The names of its ports
/// are those that its bag needs.
#[inline(always)]
pub(crate) fn move_cell<L: Ledger>(
    store: &mut CellStore,
    cell: u32,
    t: Time,
    woken: bool,
    bag: &[(PortNo, Value)],
    ports: &[Name],
    steps: &mut Steps<L>,
) -> Result<Told, LeafStop>
    requires within { cell < length store.old.cells }
    requires some { HasPort (cell_at store.old.cells cell) }
    requires time { t ≤ MAX_DELAY }
    requires ports { All (λ (o : AnyPort × AnyValue). o.0.0 < length ports.now) bag.now }
    ensures moves { OfItsGroup store.old.layout cell bag.now ports.now
        (λ g. MovesCell store.old.cells store.new.cells cell
        (computed_at t g store.old.cells cell woken bag.now) result) }
    ensures layout { store.new.layout ≡ store.old.layout }
    ensures only { OnlyCell cell store.old.cells store.new.cells }
    ensures visits { steps.new ≤ steps.old + (length store.old.layout.offsets + 2) }
{
    match compute_cell(store, cell, t, woken, bag, ports, steps) {
        Ok(()) => Ok(told_of(store.computed(cell, steps))),
        Err(why) => Err(why),
    }
}

/// The step of a cell after its emission; without a bag its ports have no part in it.
#[inline(always)]
fn compute_cell<L: Ledger>(
    store: &mut CellStore,
    cell: u32,
    t: Time,
    woken: bool,
    bag: &[(PortNo, Value)],
    ports: &[Name],
    steps: &mut Steps<L>,
) -> Result<(), LeafStop>
    requires within { cell < length store.old.cells }
    requires time { t ≤ MAX_DELAY }
    requires ports { All (λ (o : AnyPort × AnyValue). o.0.0 < length ports.now) bag.now }
    ensures computed { OfItsGroup store.old.layout cell bag.now ports.now
        (λ g. Computes cell store.old.cells store.new.cells
        (computed_at t g store.old.cells cell woken bag.now) result) }
    ensures layout { store.new.layout ≡ store.old.layout }
    ensures only { OnlyCell cell store.old.cells store.new.cells }
    ensures visits { steps.new ≡ steps.old + (1 + length store.old.layout.offsets) }
{
    if bag.is_empty() {
        store.compute_alone(cell, t, woken, steps)
    } else {
        store.compute(cell, t, woken, bag, ports, steps)
    }
}

/// What is told of a cell that moved.
fn told_of(computed: Computed) -> Told
    ensures value { result.value ≡ Some computed.value }
    ensures next { result.next ≡ computed.next }
{
    Told {
        value: Some(computed.value),
        next: computed.next,
    }
}
