// The zones of groups, with the names of their rules.
ghost use Rattle.std.specs.Prelude.{◌≡◌, ◌∷◌, [], OnOk};
ghost use Rattle.model_text.specs.Spaces as S;
ghost use Rattle.model_spaces.specs.Zoned as spec;

use crate::keyed::{has_key, least_with_entry};
use cell_grid::{Grid, ZoneRefusal, Zones};
use ma_lines::Entry;
use model_text::Kind;
use model_walk::{Item, ReadSection, Refused};
use quantity::OutOfMemory;
use quantity::digits::cut_at;
use source_text::line::trimmed;
use std::alloc::{AllocError, Global};

/// Zones, and the names of their rules with the lines of their entries.
#[derive(Drop)]
pub(crate) struct NamedZones<'a> {
    /// In the order of their entries.
    pub(crate) zones: Zones,
    /// The names of their rules.
    pub(crate) rules: Vec<Item<'a>>,
    /// The least refusal of the entries that are no zones.
    pub(crate) refused: Option<Refused>,
}

/// Adds the zone of an entry, where it has the key. An entry that is none is refused, and left out.
pub(crate) fn add_zone<'a>(
    alloc: Global,
    section: &ReadSection<'_>,
    grid: &Grid,
    entry: &'a Entry,
    found: &mut NamedZones<'a>,
) -> Result<(), OutOfMemory>
    requires { grid.now ≡ S.space_of section.now }
    ensures { OnOk result (spec.AddsZones section.now found.old found.new
        (entry.now ∷ [])) }
{
    // For the proof: only the clauses speak of it.
    let _section = section;
    if !has_key(entry, b"zone") {
        return Ok(());
    }
    match found.zones.add(alloc, entry.value.as_bytes(), grid) {
        Ok(_name) => {
            let (name, _items) = cut_at(b'{', entry.value.as_bytes());
            let rules = Item {
                line: entry.line,
                text: trimmed(name),
            };
            found.rules.push(rules).map_err(AllocError::from)?;
            Ok(())
        }
        Err(ZoneRefusal::BadZone) => {
            found.refused = least_with_entry(found.refused, entry, Kind::BadZone, false);
            Ok(())
        }
        Err(ZoneRefusal::Memory) => Err(OutOfMemory),
    }
}
