// What a store works with, beside what it keeps of its group and its cells.
ghost use Rattle.std.specs.Prelude.{◌≡◌, ◌+◌, ◌≤◌, IfOk, length};
ghost use Rattle.quantity.specs.declared.bounds.TheConstants.{MAX_OFFSETS};
ghost use Rattle.cell_grid.specs.Space.{cell_count};
ghost use Rattle.cell_engine.specs.Store.{HasRoom};
ghost use Rattle.cell_engine.specs.Tallied.{AreUnseen};
ghost use Rattle.cell_engine.specs.Known.{IsMemo};

use crate::desk::{Desk, desk_for};
use crate::memo::{Memo, memo_of};
use crate::plan::Plan;
use crate::tallies::first_tallies;
use quantity::{Offset, OutOfMemory};
use rule_eval::Tally;
use std::alloc::Global;

/// A desk, what is counted among the neighbours of each cell, and room for answers.
#[derive(Drop)]
pub(crate) struct Work {
    pub(crate) desk: Desk,
    pub(crate) tallies: Vec<Tally>,
    pub(crate) memo: Memo,
}

/// What a store works with before the first cycle.
pub(crate) fn work_for(alloc: Global, plan: &Plan, offsets: &[Offset]) -> Result<Work, OutOfMemory>
    requires offsets { offsets.now ≡ plan.now.offsets }
    requires few { length offsets.now ≤ MAX_OFFSETS }
    requires ports { plan.now.ports ≤ 3 }
    ensures desk { IfOk result
        (λ w. HasRoom (length offsets.now) (plan.now.ports + 1) plan.now w.desk) }
    ensures tallies { IfOk result (λ w. AreUnseen (length offsets.now)
        (cell_count plan.now.space) w.tallies.items) }
    ensures memo { IfOk result (λ w. IsMemo plan.now w.memo.own w.memo.known.items) }
{
    let places = offsets.len();
    let desk = desk_for(alloc, plan, places, plan.ports + 1)?;
    let tallies = first_tallies(alloc, plan, places)?;
    let memo = memo_of(alloc, plan, offsets, &tallies)?;
    Ok(Work {
        desk,
        tallies,
        memo,
    })
}
