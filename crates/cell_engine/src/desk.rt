// The room that each step of a cell uses again.
ghost use Rattle.std.specs.Prelude.{◌≤◌, IfOk};
ghost use Rattle.quantity.specs.declared.bounds.TheConstants.{MAX_OFFSETS};
ghost use Rattle.cell_engine.specs.Store.{HasRoom};

use crate::make::deepest_of_sets;
use crate::plan::Plan;
use quantity::{OutOfMemory, Value};
use rule_eval::{Given, Stack};
use std::alloc::Global;

/// Room that each step uses again: who the neighbours are, what a cell sees of them, what it is
/// given, its variables after the sets, and the stack on which rules are evaluated.
#[derive(Drop)]
pub(crate) struct Desk {
    pub neighbours: Vec<Option<u32>>,
    pub seen: Vec<Value>,
    pub given: Given,
    pub changed: Vec<Value>,
    pub stack: Stack,
}

/// Room for cells that have so many neighbours and ports, and go by the rules of a plan.
pub(crate) fn desk_for(
    alloc: Global,
    plan: &Plan,
    places: usize,
    width: usize,
) -> Result<Desk, OutOfMemory>
    requires places { places ≤ MAX_OFFSETS }
    requires width { width ≤ 4 }
    ensures { IfOk result (HasRoom places width plan.now) }
{
    Ok(Desk {
        neighbours: vec![in alloc; None; places]?,
        seen: vec![in alloc; Value::Undefined; places * width]?,
        given: Given { values: [None; 4] },
        changed: vec![in alloc; Value::Undefined; plan.variables]?,
        stack: Stack::for_depth(alloc, deepest_of_sets(&plan.rule_sets))?,
    })
}
