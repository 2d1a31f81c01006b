// Rows of ports: where the links into each begin.
ghost use Rattle.std.specs.Prelude.{◌≡◌, ◌++◌, ℕ, ℤ, List, [], map, slice_get, IfOk, OnOk};
ghost use Rattle.std.specs.Option.{option_map};
ghost use Rattle.port_net.specs.declared.ports.At.TheVariants as at_port;
ghost use Rattle.port_net.specs.Outside.{is_end_at};
ghost use Rattle.tree_tables.specs.Stations.{ref_of, row_of};
ghost use Rattle.tree_tables.specs.Begins.{begin_in};
ghost use Rattle.tree_tables.specs.Incoming.{begins_at, begin_seen, one_of, rows_to, AreLinks, AreRowsOf};

use crate::begins::{Inside, begins};
use crate::entry::Ref;
use crate::sizes::numbers_from;
use model_leaves::input_names::inputs_of_class;
use model_tree::{Component, Link};
use port_net::{Arrivals, At};
use quantity::{Name, OutOfMemory, counted};
use std::alloc::{AllocError, Global};

/// The links of a component: where each begins, and which lead to each port. What they take from
/// the component's own inputs doesn't come out of it.
#[derive(Drop)]
pub(crate) struct Links {
    pub(crate) outward: Vec<Option<Ref>>,
    pub(crate) inward: Vec<Option<Ref>>,
    pub(crate) arrivals: Arrivals,
}

impl Links {
    /// Those of a component with these inputs and what is inside by these numbers.
    pub(crate) fn new(
        alloc: Global,
        links: &[Link],
        ins: &[Name],
        inside: &Inside<'_, '_>,
        numbers: &[u32],
    ) -> Result<Links, OutOfMemory>
        ensures { IfOk result (λ ls. (settings : ℕ → List ℤ) → AreLinks ls
            (begin_in inside.now settings numbers.now [])
            (begin_in inside.now settings numbers.now ins.now) links.now) }
    {
        let outward = begins(alloc, links, &[], inside, numbers)?;
        let inward = begins(alloc, links, ins, inside, numbers)?;
        let count = counted(links.len())?;
        let all = numbers_from(alloc, 0, count)?;
        let arrivals = Arrivals::of_links(alloc, links, &all)?;
        Ok(Links {
            outward,
            inward,
            arrivals,
        })
    }

    /// The rows of own output ports.
    pub(crate) fn outs(&self, alloc: Global, ports: &[Name]) -> Result<Vec<Vec<Ref>>, OutOfMemory>
        ensures { IfOk result (λ rows. map row_of rows.items
            ≡ rows_to self.now.outward.items self.now.arrivals (is_end_at at_port.Own) ports.now) }
    {
        rows(alloc, &self.outward, &self.arrivals, &At::Own, ports)
    }

    /// The rows of input ports of what is inside.
    pub(crate) fn ins(
        &self,
        alloc: Global,
        at: &At<'_>,
        ports: &[Name],
    ) -> Result<Vec<Vec<Ref>>, OutOfMemory>
        ensures { IfOk result (λ rows. map row_of rows.items
            ≡ rows_to self.now.inward.items self.now.arrivals (is_end_at at.now) ports.now) }
    {
        rows(alloc, &self.inward, &self.arrivals, at, ports)
    }

    /// The rows of a child's input ports.
    pub(crate) fn ins_of(
        &self,
        alloc: Global,
        child: &Component,
    ) -> Result<Vec<Vec<Ref>>, OutOfMemory>
        ensures { IfOk result (λ rows. AreRowsOf self.now child.now (map row_of rows.items)) }
    {
        match child {
            Component::Coupled(c) => self.ins(alloc, &At::Child(&c.name), &c.ins),
            Component::Cells(g) => self.ins(alloc, &At::Child(&g.name), &g.ins),
            Component::Atomic(a) => {
                let ports = inputs_of_class(alloc, a.class)?;
                self.ins(alloc, &At::Child(&a.name), &ports)
            }
        }
    }
}

/// The rows of ports, one behind another.
fn rows(
    alloc: Global,
    begins: &[Option<Ref>],
    arrivals: &Arrivals,
    at: &At<'_>,
    ports: &[Name],
) -> Result<Vec<Vec<Ref>>, OutOfMemory>
    ensures { IfOk result (λ rows. map row_of rows.items
        ≡ rows_to begins.now arrivals.now (is_end_at at.now) ports.now) }
{
    let mut all = Vec::new(alloc);
    for port in ports {
        let links = arrivals.nodes(alloc, at, port)?;
        let row = begins_of(alloc, begins, &links)?;
        all.push(row).map_err(AllocError::from)?;
    }
    Ok(all)
}

/// Where those of these links begin that begin anywhere.
fn begins_of(alloc: Global, begins: &[Option<Ref>], links: &[u32]) -> Result<Vec<Ref>, OutOfMemory>
    ensures { IfOk result (λ row. row_of row ≡ begins_at begins.now links.now) }
{
    let mut row = Vec::new(alloc);
    for link in links {
        let begin = begin_at(begins, *link);
        put_begin(begin, &mut row)?;
    }
    Ok(row)
}

/// Where a link begins, if it begins anywhere.
fn begin_at(begins: &[Option<Ref>], link: u32) -> Option<Ref>
    ensures { option_map ref_of result ≡ begin_seen (slice_get begins.now link) }
{
    match known_at(begins, link as usize) {
        None => None,
        Some(begin) => begin,
    }
}

/// What is known of the link at a place, if there is one.
fn known_at(begins: &[Option<Ref>], place: usize) -> Option<Option<Ref>>
    ensures { result ≡ slice_get begins.now place }
{
    begins.get(place).copied()
}

/// Puts a beginning, if there is one, behind others.
fn put_begin(begin: Option<Ref>, row: &mut Vec<Ref>) -> Result<(), OutOfMemory>
    ensures { OnOk result (row_of row.new ≡ row_of row.old ++ one_of (option_map ref_of begin)) }
{
    let Some(begin) = begin else {
        return Ok(());
    };
    row.push(begin).map_err(AllocError::from)?;
    Ok(())
}
