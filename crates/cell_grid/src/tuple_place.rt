// Tuples as places and offsets of a space.
ghost use Rattle.std.specs.Prelude.{◌≡◌, ◌<◌, ◌≤◌, IfSome, ℤ, unsigned_abs};
ghost use Rattle.cell_grid.specs.Offsets as offsets;
ghost use Rattle.cell_grid.specs.Places as places;
ghost use Rattle.cell_grid.specs.Space.{cell_count};
ghost use Rattle.source_text.specs.Shown.{numbers_of};

use crate::Grid;
use quantity::{Offset, Place};
use source_text::Tuple;

/// The place that a tuple gives. None where it has not as many numbers as the space has
/// coordinates, where a number is negative, or where the place is outside.
pub fn place_in(tuple: Tuple, grid: &Grid) -> Option<Place>
    ensures { result ≡ places.place_in grid.now (numbers_of tuple) }
{
    if tuple.plane.is_some() != (grid.dims() == 3) {
        return None;
    }
    let place = Place {
        row: natural(tuple.row)?,
        column: natural(tuple.column)?,
        plane: natural(tuple.plane.unwrap_or(0))?,
    };
    grid.index(place)?;
    Some(place)
}

/// The number of the cell at the place that a tuple gives. None where `place_in` gives none.
pub fn cell_in(tuple: Tuple, grid: &Grid) -> Option<u32>
    ensures value { result ≡ places.cell_in grid.now (numbers_of tuple) }
    ensures inside { IfSome result (λ cell. cell < cell_count grid.now) }
{
    let place = place_in(tuple, grid)?;
    grid.index(place)
}

/// The offset that a tuple gives. None where it has not as many numbers as the space has
/// coordinates, or where a number is below -64 or above 64.
pub fn offset_in(tuple: Tuple, grid: &Grid) -> Option<Offset>
    ensures { result ≡ offsets.offset_in grid.now (numbers_of tuple) }
{
    if tuple.plane.is_some() != (grid.dims() == 3) {
        return None;
    }
    let row = near(tuple.row)?;
    let column = near(tuple.column)?;
    let plane = near(tuple.plane.unwrap_or(0))?;
    Some(offset(row, column, plane))
}

fn offset(row: i8, column: i8, plane: i8) -> Offset
    ensures { result ≡ record { row = row; column = column; plane = plane } }
{
    Offset { row, column, plane }
}

fn natural(number: i32) -> Option<u32>
    ensures { result ≡ places.natural number }
{
    u32::try_from(number).ok()
}

/// A number that is at most 64 away.
fn near(number: i32) -> Option<i8>
    ensures { result ≡ offsets.near number }
{
    if number < -64 || 64 < number {
        return None;
    }
    Some(number as i8)
}
