// Zones as texts.
ghost use Rattle.std.specs.Prelude.{◌≡◌, ◌<◌, ◌≤◌, ◌∷◌, ◌++◌, [], Some, None, codes, length, IfOk, IfSome, MatchOption};
ghost use Rattle.std.specs.Bool.{then_some};
ghost use Rattle.std.specs.Option.{option_map};
ghost use Rattle.quantity.specs.Bytes.{is_empty, without_outer_blanks};
ghost use Rattle.source_text.specs.Tuples.{parts_of};
ghost use Rattle.cell_grid.specs.InCode.{region_of};
ghost use Rattle.cell_grid.specs.ZoneTexts as spec;
ghost use Rattle.cell_grid.specs.Reading.{NoEndFirst, ranges_from, ranges_of_parts};

use crate::Grid;
use crate::tuple_place::place_in;
use crate::zones::{Zone, ZoneRefusal};
use quantity::digits::cut_at;
use quantity::{Name, Place};
use source_text::cut::part_before;
use source_text::line::trimmed;
use source_text::tuples::named_tuple;
use std::alloc::{AllocError, Global};

/// The zone of a text `name { items }`. BadZone is any other text, and a place outside.
pub fn zone_in(alloc: Global, text: &[u8], grid: &Grid) -> Result<Zone, ZoneRefusal>
    ensures ok { IfOk result (λ zone. spec.zone_in grid.now text.now ≡ Some (region_of zone)) }
    ensures bad { result ≡ Err ZoneRefusal.BadZone → spec.zone_in grid.now text.now ≡ None }
{
    let (name, behind) = cut_at(b'{', text);
    let Some(items) = behind.strip_suffix(b"}") else {
        return Err(ZoneRefusal::BadZone);
    };
    let ranges = ranges_in(alloc, items, grid)?;
    let name = Name::parse(alloc, trimmed(name))?;
    Ok(Zone { name, ranges })
}

/// The ranges of a zone's items, of which there is at least one.
fn ranges_in(alloc: Global, items: &[u8], grid: &Grid) -> Result<Vec<(Place, Place)>, ZoneRefusal>
    ensures ok { IfOk result (λ ranges. spec.ranges_in grid.now items.now ≡ Some ranges.items) }
    ensures bad { result ≡ Err ZoneRefusal.BadZone → spec.ranges_in grid.now items.now ≡ None }
{
    let mut ranges = Vec::new(alloc);
    let mut left = items;
    'parts: while let Some((part, behind)) = closed_part(left) {
        let Some((corners, others)) = first_range(part, behind, grid) else {
            return Err(ZoneRefusal::BadZone);
        };
        ranges.push(corners).map_err(AllocError::from)?;
        left = others;
    }
    if ranges.is_empty() {
        return Err(ZoneRefusal::BadZone);
    }
    if !trimmed(left).is_empty() {
        return Err(ZoneRefusal::BadZone);
    }
    Ok(ranges)
}

/// What stands before the first closing parenthesis, and what stands behind it. None where there is
/// none.
fn closed_part(text: &[u8]) -> Option<(&[u8], &[u8])>
    ensures parts { MatchOption result
        (parts_of text.now ≡ then_some (is_empty (without_outer_blanks text.now)) [])
        (λ r. parts_of text.now ≡ option_map (λ parts. r.0.now ∷ parts) (parts_of r.1.now)) }
    ensures shorter { IfSome result (λ r. length r.1.now < length text.now) }
{
    part_before(b')', text)
}

/// The range that a part begins, which ends with the next part where that begins with `..`, and the
/// text behind it. None where the part or its end is no place inside, or where the end is less in a
/// coordinate.
fn first_range<'a>(part: &[u8], behind: &'a [u8], grid: &Grid) -> Option<((Place, Place), &'a [u8])>
    ensures value { let ranges = ranges_from grid.now part.now (parts_of behind.now) in
        MatchOption result (ranges ≡ None)
        (λ r. ranges ≡ option_map (λ rs. r.0 ∷ rs) (ranges_of_parts grid.now (parts_of r.1.now))) }
    ensures shorter { IfSome result (λ r. length r.1.now ≤ length behind.now) }
{
    if part.starts_with(b"..") {
        return None;
    }
    let start = bare_place(trimmed(part), grid)?;
    let Some((end, others)) = end_part(behind) else {
        return Some(((start, start), behind));
    };
    let end = bare_place(end, grid)?;
    if !is_ordered(start, end) {
        return None;
    }
    Some(((start, end), others))
}

/// The next part behind its `..`, and what stands behind it. None where no part is next that begins
/// so.
fn end_part(text: &[u8]) -> Option<(&[u8], &[u8])>
    ensures parts { MatchOption result (NoEndFirst (parts_of text.now))
        (λ r. parts_of text.now
        ≡ option_map (λ parts. (codes ".." ++ r.0.now) ∷ parts) (parts_of r.1.now)) }
    ensures shorter { IfSome result (λ r. length r.1.now < length text.now) }
{
    let (part, behind) = closed_part(text)?;
    let end = part.strip_prefix(b"..")?;
    Some((end, behind))
}

/// The place of a tuple without its closing parenthesis and without a name.
fn bare_place(part: &[u8], grid: &Grid) -> Option<Place>
    ensures { result ≡ spec.bare_place grid.now part.now }
{
    let named = named_tuple(part)?;
    if !named.name.is_empty() {
        return None;
    }
    place_in(named.place, grid)
}

/// Whether no coordinate of the first passes that of the second.
fn is_ordered(first: Place, second: Place) -> bool
    ensures { result ≡ spec.is_ordered first second }
{
    first.row <= second.row && first.column <= second.column && first.plane <= second.plane
}
