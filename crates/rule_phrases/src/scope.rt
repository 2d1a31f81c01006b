// The numbers that names stand for in a group.
ghost use Rattle.std.specs.Prelude.{◌≡◌, ◌<◌, ◌&&◌, ◌-ℤ◌, pos, unwrap_or, IfSome};
ghost use Rattle.std.specs.List.{position};
ghost use Rattle.std.specs.Str.{bytes_eq};
ghost use Rattle.quantity.specs.Arithmetic.{is_zero};
ghost use Rattle.rule_tree.specs.Phrases.{out};
ghost use Rattle.rule_tree.specs.Scope.{offset_number, offset_of, port_number, same_offset};
ghost use Rattle.rule_tree.specs.Scope.{variable_number};
ghost use Rattle.rule_words.specs.Shown.{cell_of, names_of};

use quantity::{Name, Offset};
use rule_words::cell::WrittenCell;
use rule_words::names::Names;

/// The number of the offset that a cell's coordinates are, counted from 0; None where there is no
/// such offset.
pub fn offset_number(names: &Names, cell: &WrittenCell<'_>) -> Option<u8>
    ensures { result ≡ offset_number (names_of names.now) (cell_of cell.now).place }
{
    small(place_at(cell, &names.offsets))
}

/// The number, which is below 256.
fn small(number: Option<usize>) -> Option<u8>
    requires { IfSome number (λ k. k < 256) }
    ensures { result ≡ number }
{
    let number = number?;
    Some(number as u8)
}

/// Where an offset at a cell's coordinates stands first.
fn place_at(cell: &WrittenCell<'_>, offsets: &[Offset]) -> Option<usize>
    ensures { result ≡ position (same_offset (offset_of (cell_of cell.now).place)) offsets.now }
{
    offsets.iter().position(|offset| is_at(cell, offset))
}

/// Whether a cell's coordinates are those of an offset. A plane that is missing counts as 0.
fn is_at(cell: &WrittenCell<'_>, offset: &Offset) -> bool
    ensures { result ≡ same_offset (offset_of (cell_of cell.now).place) offset.now }
{
    all_three(
        is_at_row(cell, offset),
        is_at_column(cell, offset),
        is_at_plane(cell, offset),
    )
}

/// Apart from the tests, so that proofs see the answer whole.
fn all_three(row: bool, column: bool, plane: bool) -> bool
    ensures { result ≡ (row && column && plane) }
{
    row && column && plane
}

fn is_at_row(cell: &WrittenCell<'_>, offset: &Offset) -> bool
    ensures { result ≡ is_zero (cell.now.row -ℤ offset.now.row) }
{
    cell.row == i64::from(offset.row)
}

fn is_at_column(cell: &WrittenCell<'_>, offset: &Offset) -> bool
    ensures { result ≡ is_zero (cell.now.column -ℤ offset.now.column) }
{
    cell.column == i64::from(offset.column)
}

fn is_at_plane(cell: &WrittenCell<'_>, offset: &Offset) -> bool
    ensures { result ≡ is_zero (unwrap_or cell.now.plane (pos 0) -ℤ offset.now.plane) }
{
    match cell.plane {
        None => offset.plane == 0,
        Some(plane) => plane == i64::from(offset.plane),
    }
}

/// The number of a state variable, counted from 0; None where there is no such variable.
pub fn variable_number(names: &Names, word: &[u8]) -> Option<u8>
    ensures { result ≡ variable_number (names_of names.now) word.now }
{
    let number = place_called(word, &names.variables)?;
    Some(number as u8)
}

/// The number of a neighbour's port: 0 for `out`, and the others counted from 1; None where there
/// is no such port.
pub fn port_number(names: &Names, word: &[u8]) -> Option<u8>
    ensures { result ≡ port_number (names_of names.now) word.now }
{
    if is_out(word) {
        return Some(0);
    }
    let number = place_called(word, &names.ports)?;
    Some(number as u8 + 1)
}

/// Where a name that is this word stands first.
fn place_called(word: &[u8], names: &[Name]) -> Option<usize>
    ensures { result ≡ position (bytes_eq word.now) names.now }
{
    names.iter().position(|name| word == name.as_bytes())
}

fn is_out(word: &[u8]) -> bool
    ensures { result ≡ bytes_eq word.now out }
{
    word == b"out".as_slice()
}
