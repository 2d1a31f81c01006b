// What a served run has of its model.
ghost use Rattle.std.specs.Prelude.{◌≡◌, [], map, IfOk, IsTrue};
ghost use Rattle.model_tree.specs.Tree as trees;
ghost use Rattle.model_leaves.specs.Leaves.{OfTree};
ghost use Rattle.model_tree.specs.Sound.{is_sound_model};
ghost use Rattle.model_leaves.specs.Boxes.{BoxesStand};
ghost use Rattle.run_model.specs.Cycle.{initial_leaf, leaf_next};
ghost use Rattle.run_leaves.specs.Seated.{settings_in, tree_at};
ghost use Rattle.tree_mail.specs.Tabled.{AreTables};

use atomic_face::{AtomicModel, Stock};
use model_leaves::Model;
use quantity::{OutOfMemory, Time};
use run_leaves::FlatLeaves;
use std::alloc::Global;
use tree_mail::mail::Mail;
use tree_mail::tables::Tables;
use tree_messages::start::start_times;

/// The leaves of a model with its boxes at their start, and when each is due.
pub(crate) fn leaves_at_start<M: AtomicModel>(
    alloc: Global,
    model: Model,
    stock: Stock<M>,
) -> Result<(FlatLeaves<M>, Vec<Option<Time>>), OutOfMemory>
    requires sound { IsTrue (is_sound_model (tree_at model (settings_in stock))) }
    requires boxes { BoxesStand stock model }
    ensures model { IfOk result (λ made. made.0.model ≡ model) }
    ensures settings { IfOk result (λ made. made.0.settings ≡ settings_in stock) }
    ensures states { IfOk result (λ made. made.0.states
        ≡ map initial_leaf (trees.leaves (tree_at model (settings_in stock)))) }
    ensures due { IfOk result (λ made. made.1.items ≡ map leaf_next made.0.states) }
{
    let leaves = FlatLeaves::new(alloc, model, stock)?;
    match start_times(alloc, &leaves) {
        Ok(due) => Ok((leaves, due)),
        Err(OutOfMemory) => {
            leaves.release();
            Err(OutOfMemory)
        }
    }
}

/// The tables of a model, and no message that waits.
pub(crate) fn tables_and_mail(alloc: Global, model: &Model) -> Result<(Tables, Mail), OutOfMemory>
    ensures tables { IfOk result (λ made. OfTree model.now (λ t. AreTables t made.0)) }
    ensures waiting { IfOk result (λ made. made.1.waiting ≡ []) }
    ensures kept { IfOk result (λ made. made.1.kept.items ≡ []) }
{
    let tables = Tables::new(alloc, model)?;
    let mail = Mail::new(alloc, tables.entries.len())?;
    Ok((tables, mail))
}
