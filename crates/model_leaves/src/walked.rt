// The walk over components that makes the table.
ghost use Rattle.std.specs.Prelude.{◌≡◌, ◌+◌, OnOk};
ghost use Rattle.model_leaves.specs.Table.{seats_from, groups_in};
ghost use Rattle.model_leaves.specs.Growing.{Grows, seats_of_all, groups_in_all};

use crate::growing::Growing;
use model_tree::component::Component;
use quantity::OutOfMemory;
use std::alloc::Global;

/// The leaves of a component, behind the others.
#[cycle(put)]
pub(crate) fn put(
    alloc: Global,
    component: &Component,
    table: &mut Growing,
) -> Result<(), OutOfMemory>
    ensures ok { OnOk result (Grows table.old table.new
        (seats_from component.now table.old.groups)) }
    ensures groups { OnOk result (table.new.groups ≡ table.old.groups + groups_in component.now) }
{
    match component {
        Component::Coupled(c) => put_all(alloc, &c.children, table),
        Component::Cells(g) => table.group(alloc, g),
        Component::Atomic(a) => table.atomic(alloc, a),
    }
}

/// The leaves of some components.
#[cycle(put)]
pub(crate) fn put_all(
    alloc: Global,
    children: &[Component],
    table: &mut Growing,
) -> Result<(), OutOfMemory>
    ensures ok { OnOk result (Grows table.old table.new
        (seats_of_all children.now table.old.groups)) }
    ensures groups { OnOk result (table.new.groups
        ≡ table.old.groups + groups_in_all children.now) }
{
    for child in children {
        put(alloc, child, table)?;
    }
    Ok(())
}
