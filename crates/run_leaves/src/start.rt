// What the leaves of a run start with.
ghost use Rattle.std.specs.Prelude.{◌≡◌, ◌++◌, [], ◌∷◌, IfOk, OnOk};
ghost use Rattle.run_leaves.specs.Placed.{ArePlacesOf, AreStoresOf, HasSoundGroups};

use crate::seats::Seats;
use cell_engine::CellStore;
use model_leaves::Model as Tree;
use quantity::OutOfMemory;
use std::alloc::{AllocError, Global};

/// Where each leaf of a model stands, and a store for each group.
pub(crate) fn places_and_stores(
    alloc: Global,
    model: &Tree,
) -> Result<(Seats, Vec<CellStore>), OutOfMemory>
    requires { HasSoundGroups model.now }
    ensures seats { IfOk result (λ made. ArePlacesOf model.now made.0) }
    ensures stores { IfOk result (λ made. AreStoresOf model.now made.1.items) }
{
    let seats = places_of(alloc, model)?;
    let stores = stores_of(alloc, model)?;
    Ok((seats, stores))
}

/// Where each leaf of a model stands.
#[inline(never)]
fn places_of(alloc: Global, model: &Tree) -> Result<Seats, OutOfMemory>
    ensures { IfOk result (λ seats. ArePlacesOf model.now seats) }
{
    let mut seats = Seats::new(alloc);
    for leaf in 0..model.leaves() {
        seats.push(model.leaf_at(leaf))?;
    }
    Ok(seats)
}

/// A store for each group of a model.
fn stores_of(alloc: Global, model: &Tree) -> Result<Vec<CellStore>, OutOfMemory>
    requires { HasSoundGroups model.now }
    ensures { IfOk result (λ stores. AreStoresOf model.now stores.items) }
{
    let groups = model.all_groups(alloc)?;
    let mut stores = Vec::with_capacity(alloc, groups.len())?;
    for group in &groups {
        let store = CellStore::new(alloc, group)?;
        add_store(&mut stores, store)?;
    }
    Ok(stores)
}

fn add_store(stores: &mut Vec<CellStore>, store: CellStore) -> Result<(), OutOfMemory>
    ensures { OnOk result (stores.new.items ≡ stores.old.items ++ store ∷ []) }
{
    stores.push(store).map_err(AllocError::from)?;
    Ok(())
}
