// The wiring of a component: who is inside, and which links lead where.
ghost use Rattle.std.specs.Prelude.{IfOk};
ghost use Rattle.tree_tables.specs.Incoming.{AreCoupledLinks};
ghost use Rattle.tree_tables.specs.Wiring.{IsCoupledWiring, IsGroupWiring};

use crate::begins::Inside;
use crate::entry::Ref;
use crate::incoming::Links;
use crate::sizes::{behind, numbers, numbers_from};
use model_tree::{CellGroup, Coupled};
use port_net::Children;
use quantity::OutOfMemory;
use std::alloc::Global;

/// The numbers of a component's children, its links, and the rows of its output ports.
#[derive(Drop)]
pub(crate) struct Wiring {
    pub(crate) children: Vec<u32>,
    pub(crate) links: Links,
    pub(crate) outs: Vec<Vec<Ref>>,
}

/// That of a coupled component of this number.
pub(crate) fn wiring_of_coupled(
    alloc: Global,
    coupled: &Coupled,
    number: u32,
) -> Result<Wiring, OutOfMemory>
    ensures { IfOk result (λ wiring. IsCoupledWiring coupled.now number wiring) }
{
    let below = behind(number, 1)?;
    let children = numbers(alloc, &coupled.children, below)?;
    let links = links_of_coupled(alloc, coupled, &children)?;
    let outs = links.outs(alloc, &coupled.outs)?;
    Ok(Wiring {
        children,
        links,
        outs,
    })
}

/// The links of a coupled component, whose children have these numbers.
fn links_of_coupled(alloc: Global, coupled: &Coupled, numbers: &[u32]) -> Result<Links, OutOfMemory>
    ensures { IfOk result (λ ls. AreCoupledLinks coupled.now numbers.now ls) }
{
    let children = Children::new(alloc, &coupled.children)?;
    let inside = Inside::Children(&children);
    Links::new(alloc, &coupled.links, &coupled.ins, &inside, numbers)
}

/// That of a group of this number.
pub(crate) fn wiring_of_group(
    alloc: Global,
    group: &CellGroup,
    number: u32,
) -> Result<Wiring, OutOfMemory>
    ensures { IfOk result (λ wiring. IsGroupWiring group.now number wiring) }
{
    let below = behind(number, 1)?;
    let children = numbers_from(alloc, below, group.grid.cells())?;
    let links = Links::new(alloc, &group.links, &group.ins, &Inside::Cells, &children)?;
    let outs = links.outs(alloc, &group.outs)?;
    Ok(Wiring {
        children,
        links,
        outs,
    })
}
