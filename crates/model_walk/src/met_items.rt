// The items that were met, found by their names.
ghost use Rattle.std.specs.Prelude.{◌≡◌, ◌++◌, ◌∷◌, [], ◌&&◌, false, nat_le, length, map, OnOk};
ghost use Rattle.std.specs.List.{filter};
ghost use Rattle.quantity.specs.Bytes.{is_among};
ghost use Rattle.quantity.specs.declared.bounds.TheConstants.{MAX_ATOMICS};
ghost use Rattle.model_text.specs.Walk as W;
ghost use Rattle.model_walk.specs.Shown.{item_of};

use crate::item::{Item, is_atomic, name_of};
use crate::text_set::TextSet;
use quantity::{MAX_ATOMICS, OutOfMemory};
use std::alloc::Global;
use std::marker::Model;

/// Items of different names, in the order in which they were met.
#[derive(Drop)]
pub(crate) struct MetItems<'a> {
    items: Vec<Item<'a>>,
    names: TextSet<'a>,
    atomics: usize,
}

impl<'a> Model for MetItems<'a> {
    ghost use Rattle.std.specs.Prelude.{◌≡◌, List, length, map};
    ghost use Rattle.std.specs.List.{filter};
    ghost use Rattle.model_text.specs.Keyed as K;
    ghost use Rattle.model_text.specs.Walk as W;
    ghost use Rattle.model_walk.specs.Shown.{item_of};

    ghost Value = { List K.Item };

    ghost view = { λ d. map item_of d.items.items };

    ghost invariant = { λ d. (d.names ≡ map W.item_name (map item_of d.items.items))
        × (d.atomics ≡ length (filter W.is_atomic (map item_of d.items.items))) };
}

impl<'a> MetItems<'a> {
    /// No item.
    pub(crate) fn new(alloc: Global) -> MetItems<'a>
        ensures { result ≡ [] }
    {
        MetItems {
            items: Vec::new(alloc),
            names: TextSet::new(alloc),
            atomics: 0,
        }
    }

    /// Whether an item of this one's name is there.
    pub(crate) fn has_name_of(&self, item: &Item<'_>) -> bool
        ensures { result ≡ is_among (map W.item_name self.now) (W.item_name (item_of item.now)) }
    {
        self.names.contains(name_of(item))
    }

    /// Whether this is an atomic component, and as many as there may be are there.
    #[tactic(auto, using(crate::proofs::Named::decided))]
    pub(crate) fn is_full_for(&self, item: &Item<'_>) -> bool
        ensures { result ≡ (W.is_atomic (item_of item.now)
            && nat_le MAX_ATOMICS (length (filter W.is_atomic self.now))) }
    {
        is_atomic(item) && MAX_ATOMICS <= self.atomics
    }

    /// Puts an item behind the others.
    pub(crate) fn add(&mut self, item: Item<'a>) -> Result<(), OutOfMemory>
        requires is_new { is_among (map W.item_name self.old) (W.item_name (item_of item)) ≡ false }
        requires has_room { (W.is_atomic (item_of item)
            && nat_le MAX_ATOMICS (length (filter W.is_atomic self.old))) ≡ false }
        ensures added { OnOk result (self.new ≡ self.old ++ item_of item.entry ∷ []) }
    {
        self.items.reserve(1)?;
        let _is_new = self.names.insert(name_of(&item))?;
        self.atomics += atomics_in(&item);
        let Ok(()) = self.items.push(item) else {
            unreachable!()
        };
        Ok(())
    }

    /// The items in their order.
    pub(crate) fn into_items(self) -> Vec<Item<'a>>
        ensures { map item_of result.items ≡ self.entry }
    {
        self.items
    }
}

fn atomics_in(item: &Item<'_>) -> usize
    ensures { result ≡ length (filter W.is_atomic (item_of item.now ∷ [])) }
{
    usize::from(is_atomic(item))
}
