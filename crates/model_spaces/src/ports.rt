// The ports of cells that have rules of their own.
ghost use Rattle.std.specs.Prelude.{◌≡◌, ◌∷◌, [], true, codes, IfOk, OnOk};
ghost use Rattle.std.specs.Option.{option_map};
ghost use Rattle.std.specs.Str.{bytes_eq};
ghost use Rattle.model_text.specs.Forms.{port_rule_text};
ghost use Rattle.model_text.specs.Spaces as S;
ghost use Rattle.model_walk.specs.PortRule.{port_rule_of};
ghost use Rattle.model_walk.specs.ReadValues.{IsRead};
ghost use Rattle.model_spaces.specs.Ported as spec;

use crate::keyed::{has_key, least_with_entry};
use cell_grid::Grid;
use cell_grid::tuple_place::cell_in;
use indexmap::IndexSet;
use model_text::Kind;
use model_walk::{PlacedRule, PortRuleText, ReadEntry, ReadSection, Refused};
use quantity::OutOfMemory;
use std::alloc::AllocError;

/// A port of a cell.
#[derive(Clone, Copy, PartialEq, Eq, Hash)]
pub(crate) struct CellPort<'a> {
    port: &'a [u8],
    cell: u32,
}

/// The ports of cells with the names of their rules, and what is refused of them.
#[derive(Drop)]
pub(crate) struct ReadPorts<'a> {
    /// In the order of their entries.
    pub(crate) rules: Vec<PlacedRule<'a>>,
    /// The same, to be looked up without a walk over them.
    pub(crate) seen: IndexSet<CellPort<'a>>,
    /// The least refusal of the entries that name no new port of a cell.
    pub(crate) refused: Option<Refused>,
}

/// Adds the port of an entry, where it has the key.
pub(crate) fn add_port<'a>(
    section: &ReadSection<'_>,
    grid: &Grid,
    read: &ReadEntry<'a>,
    found: &mut ReadPorts<'a>,
) -> Result<(), OutOfMemory>
    requires is_read { IsRead section.now.name read.now }
    requires space { grid.now ≡ S.space_of section.now }
    ensures { OnOk result (spec.AddsPort section.now found.old found.new read.now.entry.now) }
{
    if !has_key(read.entry, b"portintransition") {
        return Ok(());
    }
    let is_new = add_rule(section, grid, read, &mut found.seen, &mut found.rules)?;
    found.refused = least_with_entry(found.refused, read.entry, Kind::BadValue, is_new);
    Ok(())
}

/// Adds the port of an entry, where it is one of a cell of the space; says whether none before it
/// is the same.
fn add_rule<'a>(
    section: &ReadSection<'_>,
    grid: &Grid,
    read: &ReadEntry<'a>,
    seen: &mut IndexSet<CellPort<'a>>,
    rules: &mut Vec<PlacedRule<'a>>,
) -> Result<bool, OutOfMemory>
    requires is_read { IsRead section.now.name read.now }
    requires space { grid.now ≡ S.space_of section.now }
    requires key { bytes_eq read.now.entry.now.key (codes "portintransition") ≡ true }
    ensures is_new { IfOk result (λ is_new. is_new
        ≡ spec.is_unseen seen.old.keys (S.port_place section.now read.now.entry.now)) }
    ensures seen { OnOk result (spec.AddsSeen seen.old.keys seen.new.keys
        (spec.places_among section.now (read.now.entry.now ∷ []))) }
    ensures places { OnOk result (spec.AddsPlaces section.now seen.old.keys
        rules.old.items rules.new.items read.now.entry.now) }
    ensures rules { OnOk result (spec.AddsItems section.now seen.old.keys
        rules.old.items rules.new.items read.now.entry.now) }
{
    let Some(text) = port_rule(section, read) else {
        return Ok(false);
    };
    let Some(cell) = cell_in(text.place, grid) else {
        return Ok(false);
    };
    let rule = PlacedRule {
        line: read.entry.line,
        port: text.port,
        cell,
        rules: text.rules,
    };
    rules.push(rule).map_err(AllocError::from)?;
    let port = CellPort {
        port: text.port,
        cell,
    };
    let Ok(is_new) = seen.insert(port) else {
        return Err(OutOfMemory);
    };
    Ok(is_new)
}

/// What an entry says of a port of a cell.
fn port_rule<'a>(section: &ReadSection<'_>, read: &ReadEntry<'a>) -> Option<PortRuleText<'a>>
    requires is_read { IsRead section.now.name read.now }
    requires key { bytes_eq read.now.entry.now.key (codes "portintransition") ≡ true }
    ensures { option_map port_rule_of result
        ≡ port_rule_text section.now.name read.now.entry.now.value }
{
    // For the proof: only the clauses speak of it.
    let _section = section;
    read.value.port_rule()
}
