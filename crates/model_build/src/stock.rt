// The phase of atomic components: each takes a box of its class, settled by its parameters.
ghost use Rattle.std.specs.Prelude.{◌≡◌, None, Some, map, length, slice_get, not, IsTrue, IfOk};
ghost use Rattle.std.specs.List.{filter, list_all};
ghost use Rattle.model_text.specs.Walk as W;
ghost use Rattle.model_text.specs.Keys as K;
ghost use Rattle.model_text.specs.Stock as S;
ghost use Rattle.model_walk.specs.Shown.{item_of, refusal_of};
ghost use Rattle.model_walk.specs.Met.{IsWalk};
ghost use Rattle.model_build.specs.Settled.{classes_of, box_of_item, name_and_class, named_item, are_apart};

use crate::component_box::add_component;
use atomic_face::{AtomicModel, Stock};
use ma_lines::Sections;
use model_text::building::parameters_stand_once;
use model_tree::Atomic;
use model_walk::item::is_atomic;
use model_walk::{Item, Stop, Walked};
use quantity::OutOfMemory;
use std::alloc::{AllocError, Global};

/// The atomic components in declared order, each with a box of its own that is taken and stands at
/// the start that the component's parameters give. Refused is the first component that is refused:
/// it has no class, no box of its class was handed in or is left, or a parameter is off its form.
/// Boxes may be taken then, and where there is no memory.
pub fn atomics<M: AtomicModel>(
    alloc: Global,
    sections: &Sections,
    walked: &Walked<'_, '_>,
    stock: &mut Stock<M>,
) -> Result<Vec<Atomic>, Stop>
    requires walk { IsWalk sections.now walked.now }
    requires keys { K.keys_refused sections.now ≡ None }
    requires free { IsTrue (list_all (λ s. not s.taken) stock.old) }
    ensures right { IfOk result (λ atomics. S.stock_refused (classes_of stock.old) sections.now
        ≡ None) }
    ensures named { IfOk result
        (λ atomics. map name_and_class atomics.items ≡ map named_item (W.atomics sections.now)) }
    ensures boxes { IfOk result
        (λ atomics. map (λ a. slice_get stock.new a.at.0) atomics.items
        ≡ map (box_of_item sections.now) (W.atomics sections.now)) }
    ensures apart { IfOk result (λ atomics. IsTrue (are_apart (map (λ a. a.at.0) atomics.items))) }
    ensures classes { classes_of stock.new ≡ classes_of stock.old }
    ensures refused { (why : _) → result ≡ Err (Stop.Refused why)
        → S.stock_refused (classes_of stock.old) sections.now ≡ Some (refusal_of why) }
{
    parameters_stand_once();
    let items = atomic_items(alloc, &walked.items)?;
    let mut found = Vec::new(alloc);
    for item in &items {
        add_component(alloc, sections, item, stock, &mut found)?;
    }
    Ok(found)
}

/// The items with a class.
fn atomic_items<'a>(alloc: Global, items: &[Item<'a>]) -> Result<Vec<Item<'a>>, AllocError>
    ensures { IfOk result
        (λ atomics. atomics.items ≡ filter (λ i. W.is_atomic (item_of i)) items.now) }
{
    items
        .iter()
        .copied()
        .filter(|item| is_atomic(item))
        .collect(alloc)
}
