// What a run has of its model.
ghost use Rattle.std.specs.Prelude.{◌≡◌, false, replicate, IfOk, IsTrue, vec_capacity};
ghost use Rattle.model_tree.specs.Tree.{leaf_count};
ghost use Rattle.model_leaves.specs.Leaves.{OfTree};
ghost use Rattle.run_leaves.specs.Watching.{IsWatchingOf};
ghost use Rattle.model_tree.specs.Sound.{is_sound_model};
ghost use Rattle.model_leaves.specs.Boxes.{BoxesStand};
ghost use Rattle.flat_run.specs.Changes.{tree_with};
ghost use Rattle.flat_run.specs.Holds.{ArePartsOf};

use crate::workspace::workspace_for;
use atomic_face::{AtomicModel, Stock};
use cycle_steps::workspace::Workspace;
use leaf_set::BitSet;
use model_leaves::Model;
use quantity::OutOfMemory;
use run_leaves::{FlatLeaves, Watchers};
use std::alloc::Global;

/// The leaves of a model, who watches them, and a workspace for so many.
#[derive(Drop)]
pub(crate) struct Parts<M: AtomicModel> {
    pub(crate) leaves: FlatLeaves<M>,
    pub(crate) watchers: Watchers,
    pub(crate) work: Workspace<BitSet>,
}

impl<M: AtomicModel> Parts<M> {
    /// The parts of a model with its boxes, at their start.
    pub(crate) fn new(alloc: Global, model: Model, stock: Stock<M>) -> Result<Parts<M>, OutOfMemory>
        requires sound { IsTrue (is_sound_model (tree_with model stock)) }
        requires boxes { BoxesStand stock model }
        ensures { IfOk result (λ p. ArePartsOf model stock p.leaves p.watchers
            p.work.woken p.work.touched
            (vec_capacity p.work.due) (vec_capacity p.work.moving)) }
    {
        let leaves = FlatLeaves::new(alloc, model, stock)?;
        match beside_leaves(alloc, leaves.model()) {
            Ok((watchers, work)) => Ok(Parts {
                leaves,
                watchers,
                work,
            }),
            Err(OutOfMemory) => {
                leaves.release();
                Err(OutOfMemory)
            }
        }
    }
}

/// Who watches the leaves of a model, and a workspace for so many.
fn beside_leaves(alloc: Global, model: &Model) -> Result<(Watchers, Workspace<BitSet>), OutOfMemory>
    ensures watching { IfOk result (λ b. OfTree model.now (λ t. IsWatchingOf t b.0)) }
    ensures woken { IfOk result
        (λ b. OfTree model.now (λ t. b.1.woken ≡ replicate (leaf_count t) false)) }
    ensures touched { IfOk result
        (λ b. OfTree model.now (λ t. b.1.touched ≡ replicate (leaf_count t) false)) }
    ensures due { IfOk result
        (λ b. OfTree model.now (λ t. vec_capacity b.1.due ≡ leaf_count t)) }
    ensures moving { IfOk result
        (λ b. OfTree model.now (λ t. vec_capacity b.1.moving ≡ leaf_count t)) }
{
    let work = workspace_for(alloc, model.leaves())?;
    let watchers = Watchers::new(alloc, model)?;
    Ok((watchers, work))
}
