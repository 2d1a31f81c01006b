// The nodes of what stands at ports, and of what links bring.
ghost use Rattle.std.specs.Prelude.{◌≡◌, ℕ, ℤ, List, Some, map, IfOk, IfSome, OnOk, slice_get};
ghost use Rattle.model_tree.specs.Tree.{Word};
ghost use Rattle.model_tree.specs.Pull.{Source as AnySource};
ghost use Rattle.port_net.specs.Shown.{Extends, Gives, AllGive};
ghost use Rattle.port_net.specs.Arriving.{Brings};
ghost use Rattle.port_net.specs.Outside.{PortsAre, GivesOut, cell_lists};
ghost use Rattle.port_net.specs.Outside.{EachAround, EachCoupled, EachInside, EachOutputs};
ghost use Rattle.port_net.specs.Outside.{child_lists, brought_by, stands_at, coupled_at};
ghost use Rattle.port_net.specs.Outside.{given_in, comes_out};

use crate::arrivals::{Arrivals, same};
use crate::children::Children;
use crate::net::Node;
use crate::nodes::{give, join};
use crate::ports::{At, Inside, Outputs, Ports};
use model_tree::{Component, Coupled, End, Link};
use quantity::{Name, OutOfMemory, counted};
use std::alloc::{AllocError, Global};

/// The node of what stands at a port. An input of top that there is not gives no net.
pub(crate) fn node_at(
    alloc: Global,
    ports: &Ports<'_, '_>,
    port: &Name,
    nodes: &mut Vec<Node>,
) -> Result<u32, OutOfMemory>
    ensures extends { OnOk result (Extends nodes.old.items nodes.new.items) }
    ensures gives { IfOk result
        (λ k. (ins : List Word) (lists : Word → List AnySource)
        → PortsAre ins nodes.old.items ports.now lists
        → Gives ins nodes.new.items k (lists port.now)) }
{
    match ports {
        Ports::Nothing => join(nodes, Vec::new(alloc)),
        Ports::Inputs(names) => place_among(names, port),
        Ports::Linked(links, at) => {
            let older = links.nodes(alloc, at, port)?;
            join(nodes, older)
        }
    }
}

/// The place of a name.
fn place_among(names: &[Name], name: &Name) -> Result<u32, OutOfMemory>
    ensures { IfOk result (λ k. slice_get names.now k ≡ Some name.now) }
{
    for (i, other) in names.iter().enumerate() {
        if same(other, name) {
            return counted(i);
        }
    }
    Err(OutOfMemory)
}

/// The nodes of what stands at ports, one after another.
pub(crate) fn row(
    alloc: Global,
    ports: &Ports<'_, '_>,
    names: &[Name],
    nodes: &mut Vec<Node>,
) -> Result<Vec<u32>, OutOfMemory>
    ensures extends { OnOk result (Extends nodes.old.items nodes.new.items) }
    ensures gives { IfOk result
        (λ ks. (ins : List Word) (lists : Word → List AnySource)
        → PortsAre ins nodes.old.items ports.now lists
        → AllGive ins nodes.new.items ks.items (map lists names.now)) }
{
    let mut ks = Vec::new(alloc);
    for name in names {
        let k = node_at(alloc, ports, name, nodes)?;
        ks.push(k).map_err(AllocError::from)?;
    }
    Ok(ks)
}

/// The nodes of what the links of a coupled component bring, whose children give these.
pub(crate) fn coupled_arrivals(
    alloc: Global,
    coupled: &Coupled,
    own: &Ports<'_, '_>,
    outs: &[Outputs],
    nodes: &mut Vec<Node>,
) -> Result<Arrivals, OutOfMemory>
    ensures extends { OnOk result (Extends nodes.old.items nodes.new.items) }
    ensures brings { IfOk result
        (λ a. EachCoupled nodes.old.items own.now coupled.now outs.now
        (λ ins lists n settings. Brings ins nodes.new.items a
        (coupled_at coupled.now settings n lists) coupled.now.links.items)) }
{
    let children = Children::new(alloc, &coupled.children)?;
    let inside = Inside::Children(&children, outs);
    arrivals(alloc, &coupled.links, own, &inside, nodes)
}

/// The nodes of what links bring, by where they lead.
pub(crate) fn arrivals(
    alloc: Global,
    links: &[Link],
    own: &Ports<'_, '_>,
    inside: &Inside<'_, '_>,
    nodes: &mut Vec<Node>,
) -> Result<Arrivals, OutOfMemory>
    ensures extends { OnOk result (Extends nodes.old.items nodes.new.items) }
    ensures brings { IfOk result
        (λ a. EachAround nodes.old.items own.now inside.now
        (λ ins lists first settings. Brings ins nodes.new.items a
        (λ l. stands_at inside.now settings first lists l.from) links.now)) }
{
    let ks = link_nodes(alloc, links, own, inside, nodes)?;
    Arrivals::of_links(alloc, links, &ks)
}

/// The node of each link: of what stands where it begins.
fn link_nodes(
    alloc: Global,
    links: &[Link],
    own: &Ports<'_, '_>,
    inside: &Inside<'_, '_>,
    nodes: &mut Vec<Node>,
) -> Result<Vec<u32>, OutOfMemory>
    ensures extends { OnOk result (Extends nodes.old.items nodes.new.items) }
    ensures gives { IfOk result
        (λ ks. EachAround nodes.old.items own.now inside.now
        (λ ins lists first settings. AllGive ins nodes.new.items ks.items
        (brought_by inside.now settings first lists links.now))) }
{
    let mut ks = Vec::new(alloc);
    for link in links {
        let k = node_of(alloc, &link.from, own, inside, nodes)?;
        ks.push(k).map_err(AllocError::from)?;
    }
    Ok(ks)
}

/// The node of what stands at an end of a link.
fn node_of(
    alloc: Global,
    from: &End,
    own: &Ports<'_, '_>,
    inside: &Inside<'_, '_>,
    nodes: &mut Vec<Node>,
) -> Result<u32, OutOfMemory>
    ensures extends { OnOk result (Extends nodes.old.items nodes.new.items) }
    ensures gives { IfOk result
        (λ k. EachAround nodes.old.items own.now inside.now
        (λ ins lists first settings. Gives ins nodes.new.items k
        (stands_at inside.now settings first lists from.now))) }
{
    match from {
        End::Own(port) => node_at(alloc, own, port, nodes),
        End::Child(port, child) => child_node(alloc, inside, port, child, nodes),
        End::Cell(_, cell) => cell_node(alloc, inside, *cell, nodes),
    }
}

/// The node of a cell of this number.
fn cell_node(
    alloc: Global,
    inside: &Inside<'_, '_>,
    cell: u32,
    nodes: &mut Vec<Node>,
) -> Result<u32, OutOfMemory>
    ensures extends { OnOk result (Extends nodes.old.items nodes.new.items) }
    ensures gives { IfOk result
        (λ k. (ins : List Word) → Gives ins nodes.new.items k (cell_lists inside.now cell)) }
{
    match inside {
        Inside::Children(_, _) => join(nodes, Vec::new(alloc)),
        Inside::Cells(first) => {
            let leaf = first.checked_add(cell).ok_or(OutOfMemory)?;
            give(nodes, leaf)
        }
    }
}

/// The node of what comes out of the child of a name at a port.
fn child_node(
    alloc: Global,
    inside: &Inside<'_, '_>,
    port: &Name,
    child: &Name,
    nodes: &mut Vec<Node>,
) -> Result<u32, OutOfMemory>
    ensures extends { OnOk result (Extends nodes.old.items nodes.new.items) }
    ensures gives { IfOk result
        (λ k. EachInside nodes.old.items inside.now
        (λ ins first settings. Gives ins nodes.new.items k
        (child_lists inside.now settings first port.now child.now))) }
{
    match inside {
        Inside::Children(children, outs) => named_node(alloc, children, outs, port, child, nodes),
        Inside::Cells(_) => join(nodes, Vec::new(alloc)),
    }
}

/// The same among these children.
fn named_node(
    alloc: Global,
    children: &Children<'_>,
    outs: &[Outputs],
    port: &Name,
    child: &Name,
    nodes: &mut Vec<Node>,
) -> Result<u32, OutOfMemory>
    ensures extends { OnOk result (Extends nodes.old.items nodes.new.items) }
    ensures gives { IfOk result
        (λ k. EachOutputs nodes.old.items children.now.list.now outs.now
        (λ ins first settings. Gives ins nodes.new.items k
        (given_in children.now.list.now settings first port.now child.now))) }
{
    match children.place(child) {
        None => join(nodes, Vec::new(alloc)),
        Some(place) => match out_at(outs, place) {
            // Never: each child has its outputs.
            None => Err(OutOfMemory),
            Some(out) => out_node(alloc, &children.list[place], out, port, nodes),
        },
    }
}

/// The outputs at a place, if there are any.
pub(crate) fn out_at(outs: &[Outputs], place: usize) -> Option<&Outputs>
    ensures { IfSome result (λ out. slice_get outs.now place ≡ Some out.now) }
{
    if place < outs.len() {
        Some(&outs[place])
    } else {
        None
    }
}

/// The node of what comes out of a component at a port.
fn out_node(
    alloc: Global,
    component: &Component,
    out: &Outputs,
    port: &Name,
    nodes: &mut Vec<Node>,
) -> Result<u32, OutOfMemory>
    ensures extends { OnOk result (Extends nodes.old.items nodes.new.items) }
    ensures gives { IfOk result
        (λ k. (ins : List Word) (settings : ℕ → List ℤ)
        → GivesOut nodes.old.items component.now out.now
        → Gives ins nodes.new.items k (comes_out component.now settings out.now port.now)) }
{
    match component {
        Component::Coupled(_coupled) => {
            let older = out.links.nodes(alloc, &At::Own, port)?;
            join(nodes, older)
        }
        Component::Cells(_group) => {
            let older = out.links.nodes(alloc, &At::Own, port)?;
            join(nodes, older)
        }
        Component::Atomic(_) => give(nodes, out.first),
    }
}
