// The tables of a model: one walk over its components.
ghost use Rattle.std.specs.Prelude.{◌≡◌, ◌+◌, ℕ, ℤ, List, [], map, length, OnOk, IfOk};
ghost use Rattle.cell_grid.specs.Space.{cell_count};
ghost use Rattle.model_tree.specs.declared.component.Component.TheVariants as in_tree;
ghost use Rattle.model_tree.specs.Tree.{leaf_count};
ghost use Rattle.model_tree.specs.CellPorts.{ports_of_cells};
ghost use Rattle.model_tree.specs.Causes.{OfComponent};
ghost use Rattle.model_leaves.specs.Leaves.{OfTree};
ghost use Rattle.model_tree.specs.Stands.{group_of};
ghost use Rattle.tree_tables.specs.Stations.{row_of, station_in, stations};
ghost use Rattle.tree_tables.specs.Children.{leaves_of};
ghost use Rattle.tree_tables.specs.Walk.{PutsBehind, Takes, TakeAll, cell_stations};

use crate::entry::{Entry, Ref};
use crate::growing::Growing;
use crate::incoming::Links;
use crate::sizes::size_of_coupled;
use crate::wiring::{wiring_of_coupled, wiring_of_group};
use model_leaves::Model;
use model_tree::{CellGroup, Component, Coupled};
use port_net::At;
use quantity::{Name, OutOfMemory, counted};
use std::alloc::Global;

/// The processors of a model, by their numbers. It goes through the components once.
pub fn tables_of(alloc: Global, model: &Model) -> Result<Vec<Entry>, OutOfMemory>
    ensures { IfOk result (λ es. OfTree model.now (λ t. map station_in es.items ≡ stations t)) }
{
    let top = model.top();
    let root = size_of_coupled(top)?;
    let mut table = Growing::new(alloc, root)?;
    put_coupled(alloc, top, root, Vec::new(alloc), &mut table)?;
    Ok(table.entries)
}

/// The processors of a component, behind the others, with these rows at its input ports.
#[cycle(put)]
fn put(
    alloc: Global,
    component: &Component,
    parent: u32,
    ins: Vec<Vec<Ref>>,
    table: &mut Growing,
) -> Result<(), OutOfMemory>
    ensures takes { OnOk result (Takes
        component.now parent (map row_of ins.items) table.old table.new) }
    ensures leaves { OnOk result (OfComponent component.now
        (λ t. table.new.leaves ≡ table.old.leaves + leaf_count t)) }
{
    match component {
        Component::Coupled(c) => put_coupled(alloc, c, parent, ins, table),
        Component::Cells(g) => put_group(alloc, g, parent, ins, table),
        Component::Atomic(_) => table.leaf(alloc, parent, ins),
    }
}

/// Those of a coupled component.
#[cycle(put)]
fn put_coupled(
    alloc: Global,
    coupled: &Coupled,
    parent: u32,
    ins: Vec<Vec<Ref>>,
    table: &mut Growing,
) -> Result<(), OutOfMemory>
    ensures takes { OnOk result (Takes
        (in_tree.Coupled coupled.now) parent (map row_of ins.items) table.old table.new) }
    ensures leaves { OnOk result (OfComponent (in_tree.Coupled coupled.now)
        (λ t. table.new.leaves ≡ table.old.leaves + leaf_count t)) }
{
    let number = table.number()?;
    let wiring = wiring_of_coupled(alloc, coupled, number)?;
    table.component(parent, wiring.children, wiring.outs, ins)?;
    put_all(alloc, &coupled.children, number, &wiring.links, table)
}

/// Those of some children.
#[cycle(put)]
fn put_all(
    alloc: Global,
    children: &[Component],
    parent: u32,
    links: &Links,
    table: &mut Growing,
) -> Result<(), OutOfMemory>
    ensures takes { OnOk result (TakeAll children.now parent links.now table.old table.new) }
    ensures leaves { OnOk result ((settings : ℕ → List ℤ)
        → table.new.leaves ≡ table.old.leaves + leaves_of children.now settings) }
{
    for child in children {
        let ins = links.ins_of(alloc, child)?;
        put(alloc, child, parent, ins, table)?;
    }
    Ok(())
}

/// The processors of a group.
fn put_group(
    alloc: Global,
    group: &CellGroup,
    parent: u32,
    ins: Vec<Vec<Ref>>,
    table: &mut Growing,
) -> Result<(), OutOfMemory>
    ensures takes { OnOk result (Takes
        (in_tree.Cells group.now) parent (map row_of ins.items) table.old table.new) }
    ensures leaves { OnOk result (OfComponent (in_tree.Cells group.now)
        (λ t. table.new.leaves ≡ table.old.leaves + leaf_count t)) }
{
    let number = table.number()?;
    let wiring = wiring_of_group(alloc, group, number)?;
    table.component(parent, wiring.children, wiring.outs, ins)?;
    put_cells_of(alloc, group, &wiring.links, number, table)
}

/// The cells of a group.
fn put_cells_of(
    alloc: Global,
    group: &CellGroup,
    links: &Links,
    parent: u32,
    table: &mut Growing,
) -> Result<(), OutOfMemory>
    ensures cells { OnOk result (PutsBehind table.old table.new (cell_stations
        links.now parent table.old.leaves (ports_of_cells (group_of group.now)))) }
    ensures leaves { OnOk result
        (table.new.leaves ≡ table.old.leaves + cell_count group.now.grid) }
{
    let names = group.ports_of_cells(alloc)?;
    put_cells(alloc, links, &names, parent, table)
}

/// Cells whose ports have these names.
fn put_cells(
    alloc: Global,
    links: &Links,
    names: &[Vec<Name>],
    parent: u32,
    table: &mut Growing,
) -> Result<(), OutOfMemory>
    ensures cells { let all = map (λ v. v.items) names.now in
        OnOk result (PutsBehind table.old table.new
        (cell_stations links.now parent table.old.leaves all)) }
    ensures leaves { OnOk result (table.new.leaves ≡ table.old.leaves + length names.now) }
{
    for (i, ports) in names.iter().enumerate() {
        let cell = counted(i)?;
        let ins = links.ins(alloc, &At::Cell(cell), ports)?;
        table.leaf(alloc, parent, ins)?;
    }
    Ok(())
}
