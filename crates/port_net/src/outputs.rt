// What components give, from the leaves up.
ghost use Rattle.std.specs.Prelude.{◌≡◌, IfOk, OnOk};
ghost use Rattle.model_tree.specs.declared.component.Component.TheVariants as in_tree;
ghost use Rattle.port_net.specs.Shown.{Extends};
ghost use Rattle.port_net.specs.Outside.{AreOutputs, AllOutputs, leaves_of};

use crate::arrivals::Arrivals;
use crate::net::Node;
use crate::ports::{Inside, Outputs, Ports};
use crate::sources::{arrivals, coupled_arrivals};
use model_tree::{CellGroup, Component, Coupled};
use quantity::OutOfMemory;
use std::alloc::{AllocError, Global};

/// The outputs of a component whose first leaf has this number.
#[cycle(outputs)]
pub(crate) fn outputs(
    alloc: Global,
    component: &Component,
    first: u32,
    nodes: &mut Vec<Node>,
) -> Result<Outputs, OutOfMemory>
    ensures extends { OnOk result (Extends nodes.old.items nodes.new.items) }
    ensures ok { IfOk result (λ out. AreOutputs nodes.new.items component.now first out) }
{
    match component {
        Component::Coupled(c) => outputs_of_coupled(alloc, c, first, nodes),
        Component::Cells(g) => outputs_of_group(alloc, g, first, nodes),
        Component::Atomic(_) => Ok(Outputs {
            first,
            leaves: 1,
            links: Arrivals::none(alloc),
        }),
    }
}

/// Those of a coupled component.
#[cycle(outputs)]
pub(crate) fn outputs_of_coupled(
    alloc: Global,
    coupled: &Coupled,
    first: u32,
    nodes: &mut Vec<Node>,
) -> Result<Outputs, OutOfMemory>
    ensures extends { OnOk result (Extends nodes.old.items nodes.new.items) }
    ensures ok { IfOk result (λ out. AreOutputs nodes.new.items
        (in_tree.Coupled coupled.now) first out) }
{
    let outs = outputs_of_all(alloc, &coupled.children, first, nodes)?;
    let links = coupled_arrivals(alloc, coupled, &Ports::Nothing, &outs, nodes)?;
    let leaves = total(&outs)?;
    Ok(Outputs {
        first,
        leaves,
        links,
    })
}

/// Those of some components, one after another.
#[cycle(outputs)]
pub(crate) fn outputs_of_all(
    alloc: Global,
    children: &[Component],
    first: u32,
    nodes: &mut Vec<Node>,
) -> Result<Vec<Outputs>, OutOfMemory>
    ensures extends { OnOk result (Extends nodes.old.items nodes.new.items) }
    ensures ok { IfOk result (λ outs. AllOutputs nodes.new.items children.now first outs.items) }
{
    let mut outs = Vec::new(alloc);
    let mut next = first;
    for child in children {
        let out = outputs(alloc, child, next, nodes)?;
        next = next.checked_add(out.leaves).ok_or(OutOfMemory)?;
        outs.push(out).map_err(AllocError::from)?;
    }
    Ok(outs)
}

/// Those of a group.
fn outputs_of_group(
    alloc: Global,
    group: &CellGroup,
    first: u32,
    nodes: &mut Vec<Node>,
) -> Result<Outputs, OutOfMemory>
    ensures extends { OnOk result (Extends nodes.old.items nodes.new.items) }
    ensures ok { IfOk result (λ out. AreOutputs nodes.new.items
        (in_tree.Cells group.now) first out) }
{
    let links = arrivals(
        alloc,
        &group.links,
        &Ports::Nothing,
        &Inside::Cells(first),
        nodes,
    )?;
    Ok(Outputs {
        first,
        leaves: group.grid.cells(),
        links,
    })
}

/// How many leaves they have.
fn total(outs: &[Outputs]) -> Result<u32, OutOfMemory>
    ensures { IfOk result (λ n. n ≡ leaves_of outs.now) }
{
    let mut all: u32 = 0;
    for out in outs {
        all = all.checked_add(out.leaves).ok_or(OutOfMemory)?;
    }
    Ok(all)
}
