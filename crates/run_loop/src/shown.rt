// What frames show before the first cycle of a run that goes on from a saved state.
ghost use Rattle.std.specs.Prelude.{◌≡◌, ◌+◌, ◌<◌, ◌≤◌, ◌^◌, Some, None, OnOk, length};
ghost use Rattle.std.specs.Option.{option_map};
ghost use Rattle.run_loop.specs.Emitted.{AreCells, with_emitted, AreUnbegun, IsUnbegun};

use crate::drawn::Drawn;
use crate::teller::StateTeller;
use cell_engine::Steps;
use quantity::OutOfMemory;
use run_leaves::Cycles;
use std::sync::ledger::Ledger;

/// Each cell of the group that is drawn, if one is, has the value that it has emitted last. Each
/// takes one visit.
pub(crate) fn show_emitted<C: Cycles<L>, T: StateTeller<C, L>, L: Ledger>(
    run: &C,
    teller: &T,
    drawn: &mut Option<Drawn>,
    steps: &mut Steps<L>,
) -> Result<(), OutOfMemory>
    requires unserved { C.marking run.now ≡ None }
    requires goes { (C.standing run.now).stopped ≡ None }
    requires few { length (C.standing run.now).state.leaf_states < 2 ^ 32 }
    requires unbegun { AreUnbegun drawn.old }
    requires cells { AreCells (C.standing run.now).state.leaf_states drawn.old }
    ensures shown { OnOk result (drawn.new
        ≡ option_map (with_emitted (C.standing run.now).state.leaf_states) drawn.old) }
    ensures visits { steps.new ≤ steps.old + length (C.standing run.now).state.leaf_states }
{
    match drawn {
        None => Ok(()),
        Some(drawn) => show_cells(run, teller, drawn, steps),
    }
}

/// The same of a group.
fn show_cells<C: Cycles<L>, T: StateTeller<C, L>, L: Ledger>(
    run: &C,
    teller: &T,
    drawn: &mut Drawn,
    steps: &mut Steps<L>,
) -> Result<(), OutOfMemory>
    requires unserved { C.marking run.now ≡ None }
    requires goes { (C.standing run.now).stopped ≡ None }
    requires few { length (C.standing run.now).state.leaf_states < 2 ^ 32 }
    requires unbegun { IsUnbegun drawn.old }
    requires cells { AreCells (C.standing run.now).state.leaf_states (Some drawn.old) }
    ensures shown { OnOk result
        (drawn.new ≡ with_emitted (C.standing run.now).state.leaf_states drawn.old) }
    ensures visits { steps.new ≤ steps.old + length (C.standing run.now).state.leaf_states }
{
    for cell in 0..drawn.cells() {
        let leaf = drawn.first() + cell;
        let value = teller.emitted(run, leaf, steps)?;
        drawn.preset(cell, value);
    }
    Ok(())
}
