// The neighbourhoods of groups.
ghost use Rattle.std.specs.Prelude.{◌≡◌, ◌∷◌, [], ◌-ℤ◌, map, IfOk, OnOk};
ghost use Rattle.quantity.specs.Arithmetic.{is_zero};
ghost use Rattle.std.specs.List.{list_all, list_any};
ghost use Rattle.cell_grid.specs.Places.{is_offset};
ghost use Rattle.quantity.specs.declared.bounds.TheConstants.{MAX_OFFSETS};
ghost use Rattle.source_text.specs.Shown.{numbers_of};
ghost use Rattle.rule_tree.specs.Scope.{same_offset};
ghost use Rattle.model_text.specs.Spaces as S;
ghost use Rattle.model_walk.specs.ReadValues.{IsRead};
ghost use Rattle.model_spaces.specs.Gathered as spec;

use crate::keyed::{has_key, least_with_entry};
use cell_grid::Grid;
use cell_grid::tuple_place::offset_in;
use model_text::Kind;
use model_walk::{ReadEntry, ReadSection, Refused};
use quantity::{MAX_OFFSETS, Offset, OutOfMemory};
use source_text::{NamedTuple, Tuple};
use std::alloc::AllocError;

/// The offsets of a group, and what is refused of the entries that name them.
#[derive(Drop)]
pub(crate) struct ReadOffsets {
    /// In their order, each once, the first 129 where there are more. A longer list is never
    /// searched, so the time is that of the text.
    pub(crate) offsets: Vec<Offset>,
    pub(crate) refused: Option<Refused>,
}

/// Adds the offsets of an entry, where it has the key. An entry with a tuple off its space is
/// refused, and such a tuple is left out.
pub(crate) fn add_offsets(
    section: &ReadSection<'_>,
    grid: &Grid,
    read: &ReadEntry<'_>,
    found: &mut ReadOffsets,
) -> Result<(), OutOfMemory>
    requires is_read { IsRead section.now.name read.now }
    requires space { grid.now ≡ S.space_of section.now }
    ensures { OnOk result (spec.AddsOffsets section.now found.old found.new
        (read.now.entry.now ∷ [])) }
{
    // For the proof: only the clauses speak of it.
    let _section = section;
    if !has_key(read.entry, b"neighbors") {
        return Ok(());
    }
    let Some(tuples) = read.value.tuples() else {
        return Ok(());
    };
    let are_offsets = add_tuples(grid, tuples, &mut found.offsets)?;
    found.refused = least_with_entry(found.refused, read.entry, Kind::BadValue, are_offsets);
    Ok(())
}

/// Adds the tuples that are offsets; says whether all are.
fn add_tuples(
    grid: &Grid,
    tuples: &[NamedTuple<'_>],
    found: &mut Vec<Offset>,
) -> Result<bool, OutOfMemory>
    ensures found { OnOk result (found.new.items
        ≡ spec.offsets_with_all found.old.items
        (spec.offsets_among grid.now (map (λ t. numbers_of t.place) tuples.now))) }
    ensures all { IfOk result (λ all. all
        ≡ list_all (is_offset grid.now) (map (λ t. numbers_of t.place) tuples.now)) }
{
    let mut all = true;
    for named in tuples {
        all &= add_tuple(grid, named.place, found)?;
    }
    Ok(all)
}

/// Adds a tuple where it is an offset; says whether it is.
fn add_tuple(grid: &Grid, tuple: Tuple, found: &mut Vec<Offset>) -> Result<bool, OutOfMemory>
    ensures found { OnOk result (found.new.items
        ≡ spec.offsets_with_all found.old.items
        (spec.offsets_among grid.now (numbers_of tuple ∷ []))) }
    ensures is_offset { IfOk result (λ right. right ≡ is_offset grid.now (numbers_of tuple)) }
{
    let Some(offset) = offset_in(tuple, grid) else {
        return Ok(false);
    };
    if MAX_OFFSETS < found.len() || is_among(offset, found) {
        return Ok(true);
    }
    found.push(offset).map_err(AllocError::from)?;
    Ok(true)
}

fn is_among(offset: Offset, found: &[Offset]) -> bool
    ensures { result ≡ list_any (λ p. same_offset p offset) found.now }
{
    found.iter().any(|other| is_same(*other, offset))
}

fn is_same(a: Offset, b: Offset) -> bool
    ensures { result ≡ same_offset a b }
{
    is_same_step(a.row, b.row) & is_same_step(a.column, b.column) & is_same_step(a.plane, b.plane)
}

/// Whether two steps along one side of the space are the same.
fn is_same_step(a: i8, b: i8) -> bool
    ensures { result ≡ is_zero (a -ℤ b) }
{
    a == b
}
