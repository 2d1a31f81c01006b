// The making of a model's table: one walk over its components.
ghost use Rattle.std.specs.Prelude.{◌≡◌, ◌+◌, ◌<◌, [], ◌∷◌, Some, IfOk, OnOk, slice_get};
ghost use Rattle.model_leaves.specs.Table.{seat_at};
ghost use Rattle.model_leaves.specs.Growing.{AtPart, IsPartOf, box_seat_of, cell_seats, part_seats};

use crate::input_names::inputs_of_class;
use crate::table::{Part, PartAt, Row};
use model_tree::copies::{all_copied, put_copies};
use model_tree::group::{Atomic, CellGroup};
use quantity::{Name, OutOfMemory, counted};
use std::alloc::{AllocError, Global};

/// The table as far as it is made, and the number of groups so far.
#[derive(Drop)]
pub(crate) struct Growing {
    pub(crate) parts: Vec<Part>,
    pub(crate) rows: Vec<Row>,
    pub(crate) ports: Vec<Name>,
    pub(crate) groups: u32,
}

impl Growing {
    ghost use Rattle.model_leaves.specs.Growing.{Shows, Grows};

    /// The table of nothing.
    pub(crate) fn new(alloc: Global) -> Growing
        ensures shows { Shows result [] }
        ensures groups { result.groups ≡ 0 }
    {
        Growing {
            parts: Vec::new(alloc),
            rows: Vec::new(alloc),
            ports: Vec::new(alloc),
            groups: 0,
        }
    }

    /// One more leaf, of a part that stands already.
    fn seat(&mut self, part: u32, cell: u32, names: &[Name]) -> Result<(), OutOfMemory>
        ensures ok { OnOk result
            (AtPart self.old.parts.items part
            (λ p. Grows self.old self.new (seat_at p.at p.name cell names.now ∷ []))) }
        ensures parts { self.new.parts.items ≡ self.old.parts.items }
        ensures groups { self.new.groups ≡ self.old.groups }
    {
        let first_port = counted(self.ports.len())?;
        let ports = counted(names.len())?;
        put_copies(names, &mut self.ports)?;
        let row = Row {
            part,
            cell,
            first_port,
            ports,
        };
        self.rows.push(row).map_err(AllocError::from)?;
        Ok(())
    }

    /// One more part: its number.
    fn part(&mut self, part: Part) -> Result<u32, OutOfMemory>
        ensures grows { Grows self.old self.new [] }
        ensures part { IfOk result
            (λ number. slice_get self.new.parts.items number ≡ Some part) }
        ensures groups { self.new.groups ≡ self.old.groups }
    {
        let number = counted(self.parts.len())?;
        self.parts.push(part).map_err(AllocError::from)?;
        Ok(number)
    }

    /// The leaf of an atomic component.
    pub(crate) fn atomic(&mut self, alloc: Global, atomic: &Atomic) -> Result<(), OutOfMemory>
        ensures ok { OnOk result (Grows self.old self.new (box_seat_of atomic.now ∷ [])) }
        ensures groups { OnOk result (self.new.groups ≡ self.old.groups) }
    {
        let name = atomic.name.clone()?;
        let at = PartAt::Atomic(atomic.at);
        let part = self.part(Part { name, at })?;
        let names = inputs_of_class(alloc, atomic.class)?;
        self.seat(part, 0, &names)
    }

    /// The leaves of a group.
    pub(crate) fn group(&mut self, alloc: Global, group: &CellGroup) -> Result<(), OutOfMemory>
        ensures ok { OnOk result (Grows self.old self.new (cell_seats group.now self.old.groups)) }
        ensures groups { OnOk result (self.new.groups ≡ self.old.groups + 1) }
    {
        let part = group_part(alloc, group, self.groups)?;
        let part = self.part(part)?;
        self.cells(alloc, group, part)?;
        self.groups = next(self.groups)?;
        Ok(())
    }

    /// The leaves of a group whose part stands already.
    fn cells(&mut self, alloc: Global, group: &CellGroup, part: u32) -> Result<(), OutOfMemory>
        ensures ok { OnOk result
            (AtPart self.old.parts.items part
            (λ p. Grows self.old self.new (part_seats p.at p.name group.now))) }
        ensures groups { self.new.groups ≡ self.old.groups }
    {
        let all = group.ports_of_cells(alloc)?;
        for cell in 0..group.grid.cells() {
            let names = &all[cell as usize];
            self.seat(part, cell, names)?;
        }
        Ok(())
    }
}

/// The part of a group of this number.
fn group_part(alloc: Global, group: &CellGroup, number: u32) -> Result<Part, OutOfMemory>
    ensures { IfOk result (IsPartOf group.now number) }
{
    let name = group.name.clone()?;
    let ports = all_copied(alloc, &group.ports)?;
    let at = PartAt::Cells(number, group.grid, ports);
    Ok(Part { name, at })
}

/// The number behind this one, which is refused as if there were no memory for it.
fn next(number: u32) -> Result<u32, OutOfMemory>
    ensures { IfOk result (λ n. n ≡ number + 1) }
{
    if number == u32::MAX {
        return Err(OutOfMemory);
    }
    Ok(number + 1)
}
