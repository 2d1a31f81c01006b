// A group by its number.
ghost use Rattle.std.specs.Prelude.{ℕ, List, ℤ};
ghost use Rattle.model_tree.specs.Tree.{groups};
ghost use Rattle.model_tree.specs.Causes.{OfComponent};
ghost use Rattle.model_leaves.specs.Nth.{NthIs, groups_of_all};

use model_tree::component::Component;
use model_tree::group::CellGroup;

/// A group, or how far its number is past the last.
#[derive(Clone, Copy)]
pub(crate) enum Nth<'a> {
    Group(&'a CellGroup),
    Past(u32),
}

/// The group of this number in a component.
#[cycle(find)]
pub(crate) fn nth_group(component: &Component, number: u32) -> Nth<'_>
    ensures { OfComponent component.now (λ t. NthIs result (groups t) number) }
{
    match component {
        Component::Coupled(c) => nth_group_of_all(&c.children, number),
        Component::Cells(g) => match number.checked_sub(1) {
            None => Nth::Group(g),
            Some(past) => Nth::Past(past),
        },
        Component::Atomic(_) => Nth::Past(number),
    }
}

/// The group of this number in some components.
#[cycle(find)]
pub(crate) fn nth_group_of_all(children: &[Component], number: u32) -> Nth<'_>
    ensures { (settings : ℕ → List ℤ) → NthIs result (groups_of_all children.now settings) number }
{
    let mut left = number;
    for child in children {
        match nth_group(child, left) {
            Nth::Group(group) => return Nth::Group(group),
            Nth::Past(past) => left = past,
        }
    }
    Nth::Past(left)
}
