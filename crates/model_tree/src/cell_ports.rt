// The names of the input ports of cells.
ghost use Rattle.std.specs.Prelude.{◌≡◌, ◌<◌, ℕ, List, [], IfOk, OnOk, map, slice_set, slice_index_or};
ghost use Rattle.cell_grid.specs.Space.{cell_count};
ghost use Rattle.model_tree.specs.Tree.{Word};
ghost use Rattle.model_tree.specs.Pull.{cell_ports, port_of_cell};
ghost use Rattle.model_tree.specs.Stands.{group_of};
ghost use Rattle.model_tree.specs.CellPorts.{with_name, with_port, ports_of_cells, none_each, with_end};

use crate::copies::put_copy;
use crate::faces::is_among;
use crate::group::CellGroup;
use crate::link::{End, Link};
use quantity::{Name, OutOfMemory};
use std::alloc::{AllocError, Global};

impl CellGroup {
    /// The names of a cell's input ports, by number.
    pub fn ports_of(&self, alloc: Global, cell: u32) -> Result<Vec<Name>, OutOfMemory>
        requires { cell < cell_count self.now.grid }
        ensures { IfOk result (λ names. names.items ≡ cell_ports (group_of self.now) cell) }
    {
        let mut names = Vec::new(alloc);
        for link in &self.links {
            add_port(link, cell, &mut names)?;
        }
        Ok(names)
    }

    /// The names of the input ports of each cell, by its number. It looks at each link once.
    pub fn ports_of_cells(&self, alloc: Global) -> Result<Vec<Vec<Name>>, OutOfMemory>
        ensures { IfOk result
            (λ all. map (λ v. v.items) all.items ≡ ports_of_cells (group_of self.now)) }
    {
        let mut all = no_names(alloc, self.grid.cells())?;
        for link in &self.links {
            add_to_end(&link.to, &mut all)?;
        }
        Ok(all)
    }
}

/// So many lists of no names.
fn no_names(alloc: Global, cells: u32) -> Result<Vec<Vec<Name>>, OutOfMemory>
    ensures { IfOk result (λ all. map (λ v. v.items) all.items ≡ none_each cells) }
{
    let mut all = Vec::new(alloc);
    for _cell in 0..cells {
        all.push(Vec::new(alloc)).map_err(AllocError::from)?;
    }
    Ok(all)
}

/// Appends the port at an end of a link to the names of its cell, unless it is there.
fn add_to_end(end: &End, all: &mut [Vec<Name>]) -> Result<(), OutOfMemory>
    ensures { OnOk result (map (λ v. v.items) all.new
        ≡ with_end end.now (map (λ v. v.items) all.old)) }
{
    match end {
        End::Own(_) | End::Child(_, _) => Ok(()),
        End::Cell(port, cell) => add_to_cell(port, *cell, all),
    }
}

/// Appends a name to those of a cell, unless it is there or there is no such cell.
fn add_to_cell(port: &Name, cell: u32, all: &mut [Vec<Name>]) -> Result<(), OutOfMemory>
    ensures { let old = map (λ v. v.items) all.old in
        OnOk result
        (map (λ v. v.items) all.new
        ≡ slice_set old cell (with_name (slice_index_or old cell []) port.now)) }
{
    let at = cell as usize;
    if at < all.len() {
        add_name(port, &mut all[at])?;
    }
    Ok(())
}

/// Appends the port of a cell that a link leads to, unless its name is there.
fn add_port(link: &Link, cell: u32, names: &mut Vec<Name>) -> Result<(), OutOfMemory>
    ensures { OnOk result (names.new.items
        ≡ with_port names.old.items (port_of_cell cell link.now)) }
{
    match &link.to {
        End::Cell(port, at) if *at == cell => add_name(port, names),
        _ => Ok(()),
    }
}

fn add_name(name: &Name, names: &mut Vec<Name>) -> Result<(), OutOfMemory>
    ensures { OnOk result (names.new.items ≡ with_name names.old.items name.now) }
{
    if is_among(names, name) {
        return Ok(());
    }
    put_copy(name, names)
}
