// The groups of components, found in one walk.
ghost use Rattle.std.specs.Prelude.{◌≡◌, ◌++◌, [], ◌∷◌, ℕ, ℤ, List, OnOk};
ghost use Rattle.model_tree.specs.Tree.{groups};
ghost use Rattle.model_tree.specs.Stands.{group_of};
ghost use Rattle.model_tree.specs.Causes.{OfComponent};
ghost use Rattle.model_leaves.specs.Nth.{groups_of_all};
ghost use Rattle.model_leaves.specs.Grouped.{groups_shown};

use model_tree::component::Component;
use model_tree::group::CellGroup;
use quantity::OutOfMemory;
use std::alloc::AllocError;

/// The groups of a component, behind the others.
#[cycle(gather)]
fn gather<'a>(component: &'a Component, found: &mut Vec<&'a CellGroup>) -> Result<(), OutOfMemory>
    ensures { OnOk result (OfComponent component.now (λ t.
        groups_shown found.new.items ≡ groups_shown found.old.items ++ groups t)) }
{
    match component {
        Component::Coupled(c) => gather_all(&c.children, found),
        Component::Cells(g) => add_group(g, found),
        Component::Atomic(_) => Ok(()),
    }
}

/// The groups of some components, behind the others.
#[cycle(gather)]
pub(crate) fn gather_all<'a>(
    children: &'a [Component],
    found: &mut Vec<&'a CellGroup>,
) -> Result<(), OutOfMemory>
    ensures { OnOk result ((settings : ℕ → List ℤ) → groups_shown found.new.items
        ≡ groups_shown found.old.items ++ groups_of_all children.now settings) }
{
    for child in children {
        gather(child, found)?;
    }
    Ok(())
}

fn add_group<'a>(group: &'a CellGroup, found: &mut Vec<&'a CellGroup>) -> Result<(), OutOfMemory>
    ensures { OnOk result (groups_shown found.new.items
        ≡ groups_shown found.old.items ++ group_of group.now ∷ []) }
{
    found.push(group).map_err(AllocError::from)?;
    Ok(())
}
