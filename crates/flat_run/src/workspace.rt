// What each cycle works over, before the first one.
ghost use Rattle.std.specs.Prelude.{◌≡◌, false, IfOk, replicate, vec_capacity};

use cycle_steps::scratch::Scratch;
use cycle_steps::workspace::Workspace;
use leaf_set::BitSet;
use quantity::OutOfMemory;
use std::alloc::Global;

/// A workspace whose sets have no members, and whose lists have room for so many leaves.
pub(crate) fn workspace_for(alloc: Global, leaves: u32) -> Result<Workspace<BitSet>, OutOfMemory>
    ensures woken { IfOk result (λ w. w.woken ≡ replicate leaves false) }
    ensures touched { IfOk result (λ w. w.touched ≡ replicate leaves false) }
    ensures due { IfOk result (λ w. vec_capacity w.due ≡ leaves) }
    ensures moving { IfOk result (λ w. vec_capacity w.moving ≡ leaves) }
{
    Ok(Workspace {
        woken: BitSet::with_leaves(alloc, leaves)?,
        touched: BitSet::with_leaves(alloc, leaves)?,
        due: Vec::with_capacity(alloc, leaves as usize)?,
        moving: Vec::with_capacity(alloc, leaves as usize)?,
        inputs: Vec::new(alloc),
        scratch: Scratch::none(alloc),
    })
}
