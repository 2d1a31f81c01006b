// What reaches the leaves, from top down.
ghost use Rattle.std.specs.Prelude.{◌≡◌, List, [], ◌∷◌, map, OnOk};
ghost use Rattle.model_tree.specs.declared.component.Component.TheVariants as in_tree;
ghost use Rattle.model_tree.specs.Tree.{Word};
ghost use Rattle.model_tree.specs.Pull.{Source as AnySource};
ghost use Rattle.port_net.specs.Shown.{Extends};
ghost use Rattle.port_net.specs.Outside.{PortsAre};
ghost use Rattle.port_net.specs.Rows.{Grows, Takes, TakeAll, TakeCells};

use crate::arrivals::Arrivals;
use crate::children::name_of;
use crate::growing::Growing;
use crate::outputs::outputs_of_all;
use crate::ports::{At, Inside, Outputs, Ports};
use crate::sources::{arrivals, coupled_arrivals, out_at, row};
use model_leaves::input_names::inputs_of_class;
use model_tree::{Atomic, CellGroup, Component, Coupled};
use quantity::{Name, OutOfMemory, counted};
use std::alloc::Global;

/// The leaves of a component whose first leaf has this number, behind the others.
#[cycle(put)]
pub(crate) fn put(
    alloc: Global,
    component: &Component,
    first: u32,
    own: &Ports<'_, '_>,
    net: &mut Growing,
) -> Result<(), OutOfMemory>
    ensures extends { OnOk result (Extends net.old.nodes.items net.new.nodes.items) }
    ensures takes { OnOk result (Takes component.now first own.now net.old net.new) }
{
    match component {
        Component::Coupled(c) => put_coupled(alloc, c, first, own, net),
        Component::Cells(g) => put_group(alloc, g, first, own, net),
        Component::Atomic(a) => put_atomic(alloc, a, first, own, net),
    }
}

/// Those of a coupled component.
#[cycle(put)]
pub(crate) fn put_coupled(
    alloc: Global,
    coupled: &Coupled,
    first: u32,
    own: &Ports<'_, '_>,
    net: &mut Growing,
) -> Result<(), OutOfMemory>
    ensures extends { OnOk result (Extends net.old.nodes.items net.new.nodes.items) }
    ensures takes { OnOk result (Takes
        (in_tree.Coupled coupled.now) first own.now net.old net.new) }
{
    let outs = outputs_of_all(alloc, &coupled.children, first, &mut net.nodes)?;
    let links = coupled_arrivals(alloc, coupled, own, &outs, &mut net.nodes)?;
    put_all(alloc, &coupled.children, &outs, &links, net)
}

/// Those of some components.
#[cycle(put)]
fn put_all(
    alloc: Global,
    children: &[Component],
    outs: &[Outputs],
    links: &Arrivals,
    net: &mut Growing,
) -> Result<(), OutOfMemory>
    ensures extends { OnOk result (Extends net.old.nodes.items net.new.nodes.items) }
    ensures takes { OnOk result (TakeAll children.now outs.now links.now net.old net.new) }
{
    for (i, child) in children.iter().enumerate() {
        let Some(out) = out_at(outs, i) else {
            return Err(OutOfMemory);
        };
        let own = Ports::Linked(links, At::Child(name_of(child)));
        put(alloc, child, out.first, &own, net)?;
    }
    Ok(())
}

/// The leaf of an atomic component.
fn put_atomic(
    alloc: Global,
    atomic: &Atomic,
    first: u32,
    own: &Ports<'_, '_>,
    net: &mut Growing,
) -> Result<(), OutOfMemory>
    ensures extends { OnOk result (Extends net.old.nodes.items net.new.nodes.items) }
    ensures takes { OnOk result (Takes (in_tree.Atomic atomic.now) first own.now net.old net.new) }
{
    let names = inputs_of_class(alloc, atomic.class)?;
    put_leaf(alloc, own, &names, net)
}

/// One leaf, whose ports have these names.
fn put_leaf(
    alloc: Global,
    own: &Ports<'_, '_>,
    names: &[Name],
    net: &mut Growing,
) -> Result<(), OutOfMemory>
    ensures extends { OnOk result (Extends net.old.nodes.items net.new.nodes.items) }
    ensures takes { OnOk result
        ((ins : List Word) (lists : Word → List AnySource)
        → PortsAre ins net.old.nodes.items own.now lists
        → Grows ins net.old net.new (map lists names.now ∷ [])) }
{
    if names.is_empty() {
        return net.put(&[]);
    }
    let ks = row(alloc, own, names, &mut net.nodes)?;
    net.put(&ks)
}

/// The leaves of a group.
fn put_group(
    alloc: Global,
    group: &CellGroup,
    first: u32,
    own: &Ports<'_, '_>,
    net: &mut Growing,
) -> Result<(), OutOfMemory>
    ensures extends { OnOk result (Extends net.old.nodes.items net.new.nodes.items) }
    ensures takes { OnOk result (Takes (in_tree.Cells group.now) first own.now net.old net.new) }
{
    let inside = Inside::Cells(first);
    let links = arrivals(alloc, &group.links, own, &inside, &mut net.nodes)?;
    let names = group.ports_of_cells(alloc)?;
    put_cells(alloc, &links, &names, net)
}

/// The cells of a group, whose ports have these names.
fn put_cells(
    alloc: Global,
    links: &Arrivals,
    names: &[Vec<Name>],
    net: &mut Growing,
) -> Result<(), OutOfMemory>
    ensures extends { OnOk result (Extends net.old.nodes.items net.new.nodes.items) }
    ensures takes { let all = map (λ v. v.items) names.now in
        OnOk result (TakeCells all links.now net.old net.new) }
{
    for (i, cell_names) in names.iter().enumerate() {
        let cell = counted(i)?;
        let own = Ports::Linked(links, At::Cell(cell));
        put_leaf(alloc, &own, cell_names, net)?;
    }
    Ok(())
}
