// Values at the start that are put into the groups of components.
ghost use Rattle.std.specs.Prelude.{◌≡◌, drop};
ghost use Rattle.model_tree.specs.declared.component.Component.TheVariants.{Coupled as in_tree, Cells as cells_in_tree};
ghost use Rattle.model_leaves.specs.Table.{groups_in};
ghost use Rattle.model_leaves.specs.Growing.{groups_in_all};
ghost use Rattle.model_leaves.specs.Laying.{IsLaid, AreLaid};

use cell_grid::Initial;
use model_tree::component::{Component, Coupled};
use model_tree::group::CellGroup;
use std::collections::VecDeque;

/// Gives the groups of a component the first of these values, and takes them.
#[cycle(lay)]
pub(crate) fn lay_in(component: &mut Component, values: &mut VecDeque<Initial>)
    ensures laid { IsLaid component.old component.new values.old.items }
    ensures left { values.new.items ≡ drop (groups_in component.old) values.old.items }
{
    match component {
        Component::Coupled(c) => lay_coupled(c, values),
        Component::Cells(g) => lay_group(g, values),
        Component::Atomic(_) => {}
    }
}

/// The same for a coupled component.
#[cycle(lay)]
pub(crate) fn lay_coupled(coupled: &mut Coupled, values: &mut VecDeque<Initial>)
    ensures laid { IsLaid (in_tree coupled.old) (in_tree coupled.new) values.old.items }
    ensures left { values.new.items ≡ drop (groups_in (in_tree coupled.old)) values.old.items }
{
    lay_all(&mut coupled.children, values)
}

/// The same for a group.
fn lay_group(group: &mut CellGroup, values: &mut VecDeque<Initial>)
    ensures laid { IsLaid (cells_in_tree group.old) (cells_in_tree group.new) values.old.items }
    ensures left { values.new.items ≡ drop 1 values.old.items }
{
    if let Some(initial) = values.pop_front() {
        group.initial = initial;
    }
}

/// The same for some components.
#[cycle(lay)]
pub(crate) fn lay_all(children: &mut [Component], values: &mut VecDeque<Initial>)
    ensures laid { AreLaid children.old children.new values.old.items }
    ensures left { values.new.items ≡ drop (groups_in_all children.old) values.old.items }
{
    for i in 0..children.len() {
        lay_in(&mut children[i], values);
    }
}
