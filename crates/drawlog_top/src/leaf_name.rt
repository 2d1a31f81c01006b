// The name of a leaf, in a line of a log.
ghost use Rattle.std.specs.Prelude.{◌≡◌, IfSome};
ghost use Rattle.std.specs.Option.{option_map, option_copied};
ghost use Rattle.text_forms.specs.LogLine.{has_place};
ghost use Rattle.drawlog_top.specs.LeafRead.{at_of, named_leaf, HasCoordinates, HasWholePlace};
ghost use Rattle.drawlog_top.specs.Strict as strict;

use crate::usual::plain_number;
use itoa::Buffer;
use quantity::digits::{cut_at, whole_number};
use quantity::name::is_name;
use quantity::{MAX_CELLS, Place};

/// The name of a leaf. Of a cell it is that of its group, and `dims` is the number of its
/// coordinates, 2 or 3; of an atomic component `dims` is 0. Coordinates from number `dims` on are
/// 0.
#[derive(Clone, Copy)]
pub struct LeafName<'a> {
    pub name: &'a [u8],
    pub dims: u8,
    pub place: Place,
}

/// The coordinates of a leaf, so many of them.
#[derive(Clone, Copy)]
pub(crate) struct At {
    dims: u8,
    place: Place,
}

/// The leaf's name that a text is.
pub(crate) fn read_leaf(text: &[u8]) -> Option<LeafName<'_>>
    ensures read { option_map named_leaf result ≡ strict.read_leaf text.now }
    ensures whole { IfSome result (λ leaf. HasWholePlace leaf) }
{
    let (name, rest) = cut_at(b'(', text);
    if !is_name(name) {
        return None;
    }
    let at = read_at(name.len() == text.len(), rest)?;
    Some(LeafName {
        name,
        dims: at.dims,
        place: at.place,
    })
}

/// Whether the leaf is a cell.
pub(crate) fn has_place(leaf: &LeafName<'_>) -> bool
    ensures { result ≡ has_place (named_leaf leaf.now) }
{
    leaf.dims != 0
}

/// The coordinates behind a name: none where the text ends with it.
fn read_at(ends: bool, rest: &[u8]) -> Option<At>
    ensures read { option_map at_of result ≡ strict.at_in ends rest.now }
    ensures whole { IfSome result (λ at. HasCoordinates at.place at.dims) }
{
    if ends {
        let place = Place {
            row: 0,
            column: 0,
            plane: 0,
        };
        return Some(At { dims: 0, place });
    }
    let inner = before_end(rest)?;
    read_place(inner)
}

/// What stands before the parenthesis that ends a text.
fn before_end(text: &[u8]) -> Option<&[u8]>
    ensures { option_copied result ≡ strict.before_end text.now }
{
    let (inner, _rest) = cut_at(b')', text);
    if inner.len() + 1 == text.len() {
        Some(inner)
    } else {
        None
    }
}

/// Two or three coordinates with commas between.
fn read_place(text: &[u8]) -> Option<At>
    ensures read { option_map at_of result ≡ strict.place_in text.now }
    ensures whole { IfSome result (λ at. HasCoordinates at.place at.dims) }
{
    let (row, rest) = cut_at(b',', text);
    let (column, plane) = cut_at(b',', rest);
    let ends = column.len() == rest.len();
    let row = coordinate(row)?;
    let column = coordinate(column)?;
    with_plane(row, column, ends, plane)
}

/// A place of a row and a column, where the coordinates end with these, or else of three, of which
/// the text is the third; None where that is no coordinate.
fn with_plane(row: u32, column: u32, ends: bool, plane: &[u8]) -> Option<At>
    ensures read { option_map at_of result ≡ strict.with_plane row column ends plane.now }
    ensures whole { IfSome result (λ at. HasCoordinates at.place at.dims) }
{
    if ends {
        let place = Place {
            row,
            column,
            plane: 0,
        };
        return Some(At { dims: 2, place });
    }
    let plane = coordinate(plane)?;
    let place = Place { row, column, plane };
    Some(At { dims: 3, place })
}

/// The number that is written so, where a space may have that coordinate.
fn coordinate(text: &[u8]) -> Option<u32>
    ensures { result ≡ strict.coordinate text.now }
{
    match plain_number(text) {
        Some(number) => Some(number),
        None => written_number(text),
    }
}

/// The same of any text.
fn written_number(text: &[u8]) -> Option<u32>
    ensures { result ≡ strict.coordinate text.now }
{
    let number = whole_number(7, text)? as u32;
    if MAX_CELLS <= number {
        return None;
    }
    let mut buffer = Buffer::new();
    if buffer.format(number).as_bytes() == text {
        Some(number)
    } else {
        None
    }
}
