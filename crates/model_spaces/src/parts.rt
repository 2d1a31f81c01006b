// What the entries of a group's section say that its space may refuse.
ghost use Rattle.std.specs.Prelude.{◌≡◌, [], length, IfOk, IfSome, OnOk};
ghost use Rattle.cell_grid.specs.Space.{cell_count};
ghost use Rattle.model_text.specs.Spaces as S;
ghost use Rattle.model_walk.specs.LeastOf.{IsLeastOf};
ghost use Rattle.model_walk.specs.ReadValues.{IsRead};
ghost use Rattle.model_spaces.specs.Gathered.{offsets_with_all, offsets_in};
ghost use Rattle.model_spaces.specs.Right.{AreParts, AddsEntry};

use crate::offsets::{ReadOffsets, add_offsets};
use crate::ports::{ReadPorts, add_port};
use crate::rows::{ReadRows, add_row};
use crate::sizes::initial_value;
use crate::zones::{NamedZones, add_zone};
use cell_grid::{Grid, Initial, Zones};
use indexmap::IndexSet;
use model_text::Kind;
use model_walk::least::{least, least_of_both};
use model_walk::{ReadEntry, ReadSection, Refused};
use quantity::{MAX_OFFSETS, Offset, OutOfMemory};
use std::alloc::Global;

/// What is read of a section, each part with what is refused of it.
#[derive(Drop)]
pub(crate) struct Parts<'a> {
    pub(crate) offsets: ReadOffsets,
    pub(crate) rows: ReadRows,
    pub(crate) ports: ReadPorts<'a>,
    pub(crate) zones: NamedZones<'a>,
}

/// Takes each entry once. Before rows each cell has the value of `initialvalue`.
pub(crate) fn read_parts<'a>(
    alloc: Global,
    section: &ReadSection<'a>,
    grid: &Grid,
) -> Result<Parts<'a>, OutOfMemory>
    requires { grid.now ≡ S.space_of section.now }
    ensures { IfOk result (AreParts section.now section.now.entries) }
{
    let filled = Initial::filled(alloc, grid, initial_value(section))?;
    let mut parts = Parts {
        offsets: ReadOffsets {
            offsets: Vec::new(alloc),
            refused: None,
        },
        rows: ReadRows {
            values: Some(filled),
            digit_rows: None,
            value_rows: None,
        },
        ports: ReadPorts {
            rules: Vec::new(alloc),
            seen: IndexSet::new(alloc),
            refused: None,
        },
        zones: NamedZones {
            zones: Zones::new(alloc),
            rules: Vec::new(alloc),
            refused: None,
        },
    };
    for read in section.entries() {
        add_entry(alloc, section, grid, read, &mut parts)?;
    }
    Ok(parts)
}

/// Adds what an entry says, whichever key it has.
fn add_entry<'a>(
    alloc: Global,
    section: &ReadSection<'_>,
    grid: &Grid,
    read: &ReadEntry<'a>,
    parts: &mut Parts<'a>,
) -> Result<(), OutOfMemory>
    requires is_read { IsRead section.now.name read.now }
    requires space { grid.now ≡ S.space_of section.now }
    requires length { IfSome parts.old.rows.values
        (λ values. length values ≡ cell_count grid.now) }
    ensures added { OnOk result (AddsEntry section.now parts.old parts.new
        read.now.entry.now) }
    ensures length { OnOk result (IfSome parts.new.rows.values
        (λ values. length values ≡ cell_count grid.now)) }
{
    add_offsets(section, grid, read, &mut parts.offsets)?;
    add_port(section, grid, read, &mut parts.ports)?;
    add_zone(alloc, section, grid, read.entry, &mut parts.zones)?;
    add_row(section, grid, read.entry, &mut parts.rows);
    Ok(())
}

/// The least refusal of the space of a group.
pub(crate) fn refused(section: &ReadSection<'_>, parts: &Parts<'_>) -> Option<Refused>
    requires { AreParts section.now section.now.entries parts.now }
    ensures { IsLeastOf (S.of_space section.now) result }
{
    least_of_both();
    let ports = least(parts.offsets.refused, parts.ports.refused);
    let zones = least(ports, parts.zones.refused);
    let digits = least(zones, parts.rows.digit_rows);
    let values = least(digits, parts.rows.value_rows);
    least(values, too_many_offsets(section, &parts.offsets.offsets))
}

#[tactic(auto, using(crate::proofs::Gathered::counted))]
fn too_many_offsets(section: &ReadSection<'_>, offsets: &[Offset]) -> Option<Refused>
    requires { offsets.now ≡ offsets_with_all []
        (offsets_in section.now section.now.entries) }
    ensures { IsLeastOf (S.too_many_offsets section.now) result }
{
    if offsets.len() <= MAX_OFFSETS {
        return None;
    }
    Some(Refused {
        line: section.section().line,
        kind: Kind::TooLarge,
    })
}
