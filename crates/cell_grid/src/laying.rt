// Zones that are laid over the cells of a space, the last one first: so the first has the last word.
ghost use Rattle.std.specs.Prelude.{◌≡◌, ℕ, ◌+◌, ◌<◌, ◌≤◌, length, slice_get, slice_index_or};
ghost use Rattle.std.specs.List.{list_any, position};
ghost use Rattle.std.specs.Option.{unwrap_or};
ghost use Rattle.quantity.specs.Digits.{is_between};
ghost use Rattle.quantity.specs.declared.bounds.TheConstants.{MAX_CELLS};
ghost use Rattle.cell_grid.specs.declared.zones.Zone.{Zone as AnyZone};
ghost use Rattle.cell_grid.specs.Space.{cell_count, plane_count, place_of};
ghost use Rattle.cell_grid.specs.Zones.{range_holds};
ghost use Rattle.cell_grid.specs.Numbered.{LaysNumbers};
ghost use Rattle.cell_grid.specs.Laying.{Lays, is_from, in_part, Fits};

use crate::grid::{Border, Grid};
use crate::zones::Zone;
use quantity::Place;

/// Each cell that a zone holds gets the number of the first that does.
pub(crate) fn lay_all(zones: &[Zone], grid: &Grid, numbers: &[usize], into: &mut [usize])
    requires { length into.old ≡ cell_count grid.now }
    ensures { LaysNumbers grid.now (λ cell. position
        (λ zone. list_any (range_holds (place_of grid.now cell)) zone.ranges.items) zones.now)
        numbers.now into.old into.new }
{
    let mut left = zones.len();
    'zones: while left > 0 {
        left -= 1;
        lay_at(zones, left, grid, numbers, into);
    }
}

/// Each cell that the zone of a number holds gets what stands for it.
fn lay_at(zones: &[Zone], k: usize, grid: &Grid, numbers: &[usize], into: &mut [usize])
    requires zone { k < length zones.now }
    requires cells { length into.old ≡ cell_count grid.now }
    ensures { (d : AnyZone) → Lays
        (λ place. list_any (range_holds place) (slice_index_or zones.now k d).ranges.items)
        (unwrap_or (slice_get numbers.now k) 0) grid.now into.old into.new }
{
    let number = number_at(numbers, k);
    let zone = &zones[k];
    lay_zone(&zone.ranges, grid, number, into);
}

/// The number that stands at a place, or 0.
fn number_at(numbers: &[usize], k: usize) -> usize
    ensures { result ≡ unwrap_or (slice_get numbers.now k) 0 }
{
    match numbers.get(k) {
        Some(number) => *number,
        None => 0,
    }
}

/// Each cell in one of these ranges gets the number.
fn lay_zone(ranges: &[(Place, Place)], grid: &Grid, number: usize, into: &mut [usize])
    requires { length into.old ≡ cell_count grid.now }
    ensures { Lays (λ place. list_any (range_holds place) ranges.now)
        number grid.now into.old into.new }
{
    for corners in ranges {
        lay_range(*corners, grid, number, into);
    }
}

/// Each cell in a range gets the number.
fn lay_range(corners: (Place, Place), grid: &Grid, number: usize, into: &mut [usize])
    requires { length into.old ≡ cell_count grid.now }
    ensures { Lays (λ place. range_holds place corners) number grid.now into.old into.new }
{
    // For the proof: there are at most `MAX_CELLS` cells.
    let _most = grid.cells();
    let (low, high) = corners;
    let rows = span(low.row, high.row, grid.rows());
    let columns = span(low.column, high.column, grid.columns());
    let planes = span(low.plane, high.plane, grid.planes());
    let Some(part) = Grid::new(rows, columns, Some(planes), Border::NoWrapped) else {
        return;
    };
    lay_part(&part, low, grid, number, into);
}

/// How many numbers there are from the first up to the last that are below the size.
fn span(first: u32, last: u32, size: u32) -> u32
    ensures few { result ≤ size }
    ensures below { 0 < result → first + result ≤ size }
    ensures same { (n : ℕ) → n < size → is_between first last n ≡ is_from first result n }
{
    let end = if last < size { last + 1 } else { size };
    end.saturating_sub(first)
}

/// Each cell of the part of a space that begins at a place gets the number.
fn lay_part(part: &Grid, low: Place, grid: &Grid, number: usize, into: &mut [usize])
    requires fits { Fits part.now grid.now low }
    requires rows { grid.now.rows ≤ MAX_CELLS }
    requires columns { grid.now.columns ≤ MAX_CELLS }
    requires planes { plane_count grid.now ≤ MAX_CELLS }
    requires cells { length into.old ≡ cell_count grid.now }
    ensures { Lays (in_part part.now low) number grid.now into.old into.new }
{
    for k in 0..part.cells() {
        let place = part.position(k);
        let row = low.row + place.row;
        let cell = grid.number(row, low.column + place.column, low.plane + place.plane);
        into[cell as usize] = number;
    }
}
