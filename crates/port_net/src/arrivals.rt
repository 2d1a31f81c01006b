// Nodes of links, looked up by where the links lead.
ghost use Rattle.std.specs.Prelude.{◌≡◌, ◌∷◌, ◌++◌, [], IfOk, OnOk, slice_get};
ghost use Rattle.std.specs.Str.{bytes_eq};
ghost use Rattle.model_tree.specs.declared.link.End.TheVariants.{Child};
ghost use Rattle.port_net.specs.Arriving.{end_of, nodes_to, Arrive, Adds};
ghost use Rattle.port_net.specs.Outside.{is_end_at, end_at};

use crate::ports::At;
use indexmap::IndexMap;
use model_tree::{End, Link};
use quantity::{Name, OutOfMemory};
use std::alloc::{AllocError, Global};

/// Where a link leads, by the bytes of names, the port first.
#[derive(Drop, PartialEq, Eq, Hash)]
pub(crate) enum Place {
    Own(Vec<u8>),
    Child(Vec<u8>, Vec<u8>),
    Cell(Vec<u8>, u32),
}

/// The nodes of links by where the links lead. Those of one place stand in the order of their
/// links.
#[derive(Drop)]
pub struct Arrivals {
    pub(crate) by_place: IndexMap<Place, Vec<u32>>,
}

impl Arrivals {
    /// No nodes.
    pub(crate) fn none(alloc: Global) -> Arrivals
        ensures { result.by_place.entries ≡ [] }
    {
        Arrivals {
            by_place: IndexMap::new(alloc),
        }
    }

    /// The nodes of these links. A link without a node has none.
    pub fn of_links(alloc: Global, links: &[Link], nodes: &[u32]) -> Result<Arrivals, OutOfMemory>
        ensures { IfOk result (λ a. Arrive links.now nodes.now a) }
    {
        let mut all = Arrivals::none(alloc);
        for (i, link) in links.iter().enumerate() {
            all.add(alloc, place_of(alloc, &link.to)?, node_in(nodes, i))?;
        }
        Ok(all)
    }

    /// Puts a node, if there is one, behind those of its place.
    fn add(&mut self, alloc: Global, place: Place, node: Option<u32>) -> Result<(), OutOfMemory>
        ensures { OnOk result (Adds self.old self.new (end_of place) node) }
    {
        let Some(node) = node else {
            return Ok(());
        };
        let Some(at) = self.by_place.get_index_of(&place) else {
            let first = one(alloc, node)?;
            let Ok(_absent) = self.by_place.insert(place, first) else {
                return Err(OutOfMemory);
            };
            return Ok(());
        };
        let Some(list) = self.by_place.get_index_mut(at) else {
            return Err(OutOfMemory);
        };
        append(list, node)
    }

    /// The nodes of those links that lead to a port, in their order.
    pub fn nodes(&self, alloc: Global, at: &At<'_>, port: &Name) -> Result<Vec<u32>, OutOfMemory>
        ensures { IfOk result (λ ks. ks.items ≡ nodes_to self.now (is_end_at at.now port.now)) }
    {
        let place = port_place(alloc, at, port)?;
        match self.by_place.get(&place) {
            Some(list) => Ok(Vec::from_slice(alloc, list)?),
            None => Ok(Vec::new(alloc)),
        }
    }
}

/// The place of an end.
fn place_of(alloc: Global, end: &End) -> Result<Place, OutOfMemory>
    ensures { IfOk result (λ place. end_of place ≡ end.now) }
{
    Ok(match end {
        End::Own(port) => Place::Own(bytes(alloc, port)?),
        End::Child(port, child) => Place::Child(bytes(alloc, port)?, bytes(alloc, child)?),
        End::Cell(port, cell) => Place::Cell(bytes(alloc, port)?, *cell),
    })
}

/// The place of a port.
fn port_place(alloc: Global, at: &At<'_>, port: &Name) -> Result<Place, OutOfMemory>
    ensures { IfOk result (λ place. end_of place ≡ end_at at.now port.now) }
{
    let port = bytes(alloc, port)?;
    match at {
        At::Own => Ok(Place::Own(port)),
        At::Child(child) => child_place(alloc, port, child),
        At::Cell(cell) => Ok(Place::Cell(port, *cell)),
    }
}

/// The place of a port of a child.
fn child_place(alloc: Global, port: Vec<u8>, child: &Name) -> Result<Place, OutOfMemory>
    ensures { IfOk result (λ place. end_of place ≡ Child port.items child.now) }
{
    Ok(Place::Child(port, bytes(alloc, child)?))
}

/// The bytes of a name.
fn bytes(alloc: Global, name: &Name) -> Result<Vec<u8>, OutOfMemory>
    ensures { IfOk result (λ bytes. bytes.items ≡ name.now) }
{
    Ok(Vec::from_slice(alloc, name.as_bytes())?)
}

/// The node of a number, if there is one.
fn node_in(nodes: &[u32], number: usize) -> Option<u32>
    ensures { result ≡ slice_get nodes.now number }
{
    nodes.get(number).copied()
}

/// A list of one node.
fn one(alloc: Global, node: u32) -> Result<Vec<u32>, OutOfMemory>
    ensures { IfOk result (λ list. list.items ≡ node ∷ []) }
{
    let mut list = Vec::new(alloc);
    list.push(node).map_err(AllocError::from)?;
    Ok(list)
}

/// Puts a node behind others.
fn append(list: &mut Vec<u32>, node: u32) -> Result<(), OutOfMemory>
    ensures { OnOk result (list.new.items ≡ list.old.items ++ node ∷ []) }
{
    let Ok(()) = list.push(node) else {
        return Err(OutOfMemory);
    };
    Ok(())
}

/// Whether both are the same name.
pub fn same(a: &Name, b: &Name) -> bool
    ensures { result ≡ bytes_eq a.now b.now }
{
    a.as_bytes() == b.as_bytes()
}
