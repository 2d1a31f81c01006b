// Models, with a table of their leaves: made once, so that no line of a log walks the tree.
ghost use Rattle.std.specs.Prelude.{◌≡◌, ◌<◌, ◌++◌, ℕ, List, ℤ, IfOk, OnOk, OnErr, Some, length, slice_get};
ghost use Rattle.model_tree.specs.Tree.{Leaf, leaf_count, groups};
ghost use Rattle.model_leaves.specs.Models.{tree_of};
ghost use Rattle.model_tree.specs.Stands.{group_of};
ghost use Rattle.model_leaves.specs.PlaneTexts.{leaf_text};
ghost use Rattle.model_leaves.specs.LeafTexts.{in_ports, out_ports, name_at};
ghost use Rattle.model_leaves.specs.Laid.{tree_with_values, Covers};
ghost use Rattle.model_leaves.specs.Grouped.{AreGroupsOf};
ghost use Rattle.model_leaves.specs.Table.{seat_at};
ghost use Rattle.model_leaves.specs.Told.{TellsOf};
ghost use Rattle.model_leaves.specs.Leaves.{AtLeaf, Appends, IsCellOf, IsLeafOf, IsModelOf, IsPlaceOf};
ghost use Rattle.model_leaves.specs.Leaves.{OfTree, no_settings};

use crate::find::{Nth, nth_group_of_all};
use crate::gathered::gather_all;
use crate::growing::Growing;
use crate::laying::lay_coupled;
use crate::leaf_rows::Rows;
use crate::leaf_texts::{out_name, put_leaf};
use crate::table::{Model, Part, PartAt};
use crate::walked::put_all;
use atomic_face::{BoxNo, PortNo};
use cell_grid::{Grid, Initial};
use model_tree::component::Coupled;
use model_tree::group::CellGroup;
use quantity::{Name, OutOfMemory, counted};
use std::alloc::Global;
use std::collections::VecDeque;

/// Where a leaf stands: the box of an atomic component, or a cell of the group of this number.
#[derive(Clone, Copy, PartialEq, Eq)]
pub enum LeafAt {
    Atomic(BoxNo),
    Cell { group: u32, cell: u32 },
}

/// A cell: the number of its group, its number there, and the name and the space of the group.
#[derive(Clone, Copy)]
pub struct CellAt<'a> {
    pub group: u32,
    pub cell: u32,
    pub name: &'a Name,
    pub space: &'a Grid,
}

/// What the table has of a leaf: its part, its number there, and the names of its input ports.
#[derive(Clone, Copy)]
struct Found<'a> {
    part: &'a Part,
    cell: u32,
    ins: &'a [Name],
}

impl Model {
    /// The model of a component, with its table. It goes through the component once.
    pub fn new(alloc: Global, top: Coupled) -> Result<Model, OutOfMemory>
        ensures { IfOk result (λ m. IsModelOf m top) }
    {
        let mut table = Growing::new(alloc);
        put_all(alloc, &top.children, &mut table)?;
        counted(table.rows.len())?;
        let rows = Rows::of(alloc, &table.rows)?;
        Ok(Model {
            top,
            parts: table.parts,
            rows,
            ports: table.ports,
            groups: table.groups,
        })
    }

    /// The component top.
    pub fn top(&self) -> &Coupled
        ensures { result.now ≡ self.now.top }
    {
        &self.top
    }

    /// The number of leaves.
    pub fn leaves(&self) -> u32
        ensures { OfTree self.now (λ t. result ≡ leaf_count t) }
    {
        self.rows.len() as u32
    }

    /// Where a leaf stands.
    pub fn leaf_at(&self, leaf: u32) -> LeafAt
        requires { IsLeafOf self.now leaf }
        ensures { IsPlaceOf self.now leaf result }
    {
        let found = self.found(leaf);
        match &found.part.at {
            PartAt::Atomic(at) => LeafAt::Atomic(*at),
            PartAt::Cells(group, _grid, _ports) => LeafAt::Cell {
                group: *group,
                cell: found.cell,
            },
        }
    }

    /// The cell that a leaf is, with what the table has of its group; None of an atomic component.
    pub fn cell_at(&self, leaf: u32) -> Option<CellAt<'_>>
        requires { IsLeafOf self.now leaf }
        ensures { IsCellOf self.now leaf result }
    {
        let found = self.found(leaf);
        match &found.part.at {
            PartAt::Atomic(_) => None,
            PartAt::Cells(number, grid, _ports) => Some(CellAt {
                group: *number,
                cell: found.cell,
                name: &found.part.name,
                space: grid,
            }),
        }
    }

    /// What the table has of a leaf.
    fn found(&self, leaf: u32) -> Found<'_>
        requires { IsLeafOf self.now leaf }
        ensures { let part = result.part.now in
            TellsOf self.now leaf (seat_at part.at part.name result.cell result.ins.now) }
    {
        let row = self.rows.at(leaf);
        let first = row.first_port as usize;
        Found {
            part: &self.parts[row.part as usize],
            cell: row.cell,
            ins: &self.ports[first..first + row.ports as usize],
        }
    }

    /// Appends how a leaf is called. A refusal leaves `into` as it was.
    pub fn leaf_text(&self, leaf: u32, into: &mut Vec<u8>) -> Result<(), OutOfMemory>
        requires { IsLeafOf self.now leaf }
        ensures ok { OnOk result (Appends self.now leaf leaf_text into.old.items into.new.items) }
        ensures err { OnErr result (into.new.items ≡ into.old.items) }
    {
        let found = self.found(leaf);
        let before = into.len();
        let done = put_leaf(found.part, found.cell, into);
        if done.is_err() {
            into.truncate(before);
        }
        done
    }

    /// Appends the name of a leaf's input port. A refusal leaves `into` as it was.
    pub fn port_text(&self, leaf: u32, port: PortNo, into: &mut Vec<u8>) -> Result<(), OutOfMemory>
        requires leaf { IsLeafOf self.now leaf }
        requires port { AtLeaf self.now leaf (λ l. port.0 < length (in_ports l)) }
        ensures ok { let name = λ (l : Leaf). name_at (in_ports l) port.0 in
            OnOk result (Appends self.now leaf name into.old.items into.new.items) }
        ensures err { OnErr result (into.new.items ≡ into.old.items) }
    {
        let name = &self.found(leaf).ins[port.0 as usize];
        into.extend_from_slice(name.as_bytes())?;
        Ok(())
    }

    /// Appends the name of a leaf's output port. A refusal leaves `into` as it was.
    pub fn out_port_text(
        &self,
        leaf: u32,
        port: PortNo,
        into: &mut Vec<u8>,
    ) -> Result<(), OutOfMemory>
        requires leaf { IsLeafOf self.now leaf }
        requires port { AtLeaf self.now leaf (λ l. port.0 < length (out_ports l)) }
        ensures ok { let name = λ (l : Leaf). name_at (out_ports l) port.0 in
            OnOk result (Appends self.now leaf name into.old.items into.new.items) }
        ensures err { OnErr result (into.new.items ≡ into.old.items) }
    {
        let found = self.found(leaf);
        let name = out_name(&found.part.at, port.0);
        into.extend_from_slice(name)?;
        Ok(())
    }

    /// The names of a leaf's input ports, by number: a part of the table, so no memory is taken.
    pub fn ports_at(&self, leaf: u32) -> &[Name]
        requires { IsLeafOf self.now leaf }
        ensures { AtLeaf self.now leaf (λ l. result.now ≡ in_ports l) }
    {
        self.found(leaf).ins
    }

    /// The number of groups of cells.
    pub fn groups(&self) -> u32
        ensures { OfTree self.now (λ t. result ≡ length (groups t)) }
    {
        self.groups
    }

    /// The groups by their numbers, in declared order. It goes down the tree once.
    pub fn all_groups(&self, alloc: Global) -> Result<Vec<&CellGroup>, OutOfMemory>
        ensures { IfOk result (λ found. AreGroupsOf self.now found.items) }
    {
        let mut found = Vec::new(alloc);
        gather_all(&self.top.children, &mut found)?;
        Ok(found)
    }

    /// The group of this number, counted in declared order. It goes down the tree: what asks for
    /// each group takes `all_groups`.
    pub fn group(&self, number: u32) -> &CellGroup
        requires { number < length (groups (tree_of self.now no_settings)) }
        ensures { OfTree self.now (λ t. slice_get (groups t) number ≡ Some (group_of result.now)) }
    {
        match nth_group_of_all(&self.top.children, number) {
            Nth::Group(group) => group,
            Nth::Past(_) => unreachable!(),
        }
    }

    /// Gives the groups, in declared order, these values at the start. Links and table stay.
    pub fn lay(&mut self, values: Vec<Initial>)
        requires number { length values.items ≡ length (groups (tree_of self.old no_settings)) }
        requires sizes { Covers values.items (groups (tree_of self.old no_settings)) }
        ensures { (settings : ℕ → List ℤ)
            → tree_of self.new settings
            ≡ tree_with_values values.items (tree_of self.old settings) }
    {
        let mut left = VecDeque::from(values);
        lay_coupled(&mut self.top, &mut left);
    }
}
