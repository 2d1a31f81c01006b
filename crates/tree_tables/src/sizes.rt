// How many processors components have, and what numbers their children get.
ghost use Rattle.std.specs.Prelude.{◌≡◌, ◌+◌, ℕ, ℤ, List, IfOk};
ghost use Rattle.std.specs.List.{range_with_len};
ghost use Rattle.model_tree.specs.declared.component.Component.TheVariants as in_tree;
ghost use Rattle.model_tree.specs.Causes.{OfComponent};
ghost use Rattle.served_tree.specs.Processors.{size};
ghost use Rattle.tree_tables.specs.Children.{sizes_of, numbers_of};

use model_tree::{Component, Coupled};
use quantity::OutOfMemory;
use std::alloc::{AllocError, Global};

/// The number of processors of a component.
#[cycle(size)]
pub(crate) fn size_of(component: &Component) -> Result<u32, OutOfMemory>
    ensures { IfOk result (λ n. OfComponent component.now (λ t. n ≡ size t)) }
{
    match component {
        Component::Coupled(c) => size_of_coupled(c),
        Component::Cells(g) => behind(g.grid.cells(), 1),
        Component::Atomic(_) => Ok(1),
    }
}

/// That of a coupled component.
#[cycle(size)]
pub(crate) fn size_of_coupled(coupled: &Coupled) -> Result<u32, OutOfMemory>
    ensures { IfOk result (λ n. OfComponent (in_tree.Coupled coupled.now) (λ t. n ≡ size t)) }
{
    let below = size_of_all(&coupled.children)?;
    behind(below, 1)
}

/// Those of some components together.
#[cycle(size)]
fn size_of_all(components: &[Component]) -> Result<u32, OutOfMemory>
    ensures { IfOk result
        (λ n. (settings : ℕ → List ℤ) → n ≡ sizes_of components.now settings) }
{
    let mut total = 0;
    for component in components {
        let size = size_of(component)?;
        total = behind(total, size)?;
    }
    Ok(total)
}

/// The numbers of some components, one behind another, the first of which has this number.
pub(crate) fn numbers(
    alloc: Global,
    components: &[Component],
    first: u32,
) -> Result<Vec<u32>, OutOfMemory>
    ensures { IfOk result
        (λ ns. (settings : ℕ → List ℤ) → ns.items ≡ numbers_of components.now settings first) }
{
    let mut all = Vec::new(alloc);
    let mut next = first;
    for component in components {
        let size = size_of(component)?;
        all.push(next).map_err(AllocError::from)?;
        next = behind(next, size)?;
    }
    Ok(all)
}

/// So many numbers from one on.
pub(crate) fn numbers_from(alloc: Global, first: u32, count: u32) -> Result<Vec<u32>, OutOfMemory>
    ensures { IfOk result (λ ns. ns.items ≡ range_with_len first count) }
{
    let mut all = Vec::new(alloc);
    for i in 0..count {
        let number = behind(first, i)?;
        all.push(number).map_err(AllocError::from)?;
    }
    Ok(all)
}

/// The number so many places behind another. One that is too great is refused as if there were no
/// memory for it.
pub(crate) fn behind(number: u32, places: u32) -> Result<u32, OutOfMemory>
    ensures { IfOk result (λ n. n ≡ number + places) }
{
    let Some(sum) = number.checked_add(places) else {
        return Err(OutOfMemory);
    };
    Ok(sum)
}
