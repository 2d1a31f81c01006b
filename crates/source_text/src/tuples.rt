// Tuples that are read.
ghost use Rattle.std.specs.Prelude.{◌≡◌, ◌<◌, ◌^◌, [], ◌∷◌, ◌++◌, unsigned_abs, IfOk, IfSome};
ghost use Rattle.std.specs.Option.{option_map};
ghost use Rattle.quantity.specs.ByteNames.{closing_parenthesis, opening_parenthesis};
ghost use Rattle.quantity.specs.Bytes.{all_there, without_outer_blanks};
ghost use Rattle.quantity.specs.Digits.{signed_number};
ghost use Rattle.source_text.specs.Shown.{IsShort, named_of, numbers_of, texts};
ghost use Rattle.source_text.specs.Tuples.{named_tuple, parts_of, tuple};

use crate::cut::part_before;
use crate::line::trimmed;
use crate::tuple::{NamedTuple, Tuple};
use quantity::OutOfMemory;
use quantity::digits::{cut_at, signed_number};
use std::alloc::{AllocError, Global};

/// The tuple that is written so: `(`, two or three whole numbers of 1 to 7 digits with an optional
/// sign, blanks around each, `,` between them, and `)`. None for any other text.
pub fn tuple(text: &[u8]) -> Option<Tuple>
    ensures value { option_map numbers_of result ≡ tuple text.now }
    ensures short { IfSome result IsShort }
{
    match text {
        [b'(', inner @ .., b')'] => tuple_between(inner),
        _ => None,
    }
}

/// A name and behind it a tuple, in a text that lacks the tuple's closing parenthesis: the name is
/// what stands before the first `(`. None where the rest is no tuple.
pub fn named_tuple(text: &[u8]) -> Option<NamedTuple<'_>>
    ensures value { option_map named_of result ≡ named_tuple text.now }
    ensures short { IfSome result (λ named. IsShort named.place) }
{
    let (name, inner) = cut_at(b'(', text);
    let place = tuple_between(inner)?;
    Some(NamedTuple { name, place })
}

/// The parts of a text that each end with a closing parenthesis, without it; None where anything
/// but blanks follows the last.
pub fn parts(alloc: Global, text: &[u8]) -> Result<Option<Vec<&[u8]>>, OutOfMemory>
    ensures { IfOk result (λ found. option_map (λ list. texts list.items) found
        ≡ parts_of text.now) }
{
    let mut found = Vec::new(alloc);
    let mut rest = text;
    while let Some((part, behind)) = part_before(b')', rest) {
        found.push(part).map_err(AllocError::from)?;
        rest = behind;
    }
    if trimmed(rest).is_empty() {
        Ok(Some(found))
    } else {
        Ok(None)
    }
}

/// The tuple whose parentheses stand around this.
fn tuple_between(inner: &[u8]) -> Option<Tuple>
    ensures value { option_map numbers_of result
        ≡ tuple (opening_parenthesis ∷ inner.now ++ closing_parenthesis ∷ []) }
    ensures short { IfSome result IsShort }
{
    let (row, rest) = part_before(b',', inner)?;
    let Some((column, plane)) = part_before(b',', rest) else {
        return in_plane(row, rest);
    };
    match part_before(b',', plane) {
        Some(_) => None,
        None => in_space(row, column, plane),
    }
}

fn in_plane(row: &[u8], column: &[u8]) -> Option<Tuple>
    ensures value { option_map numbers_of result
        ≡ all_there
        (signed_number 7 (without_outer_blanks row.now)
        ∷ signed_number 7 (without_outer_blanks column.now)
        ∷ []) }
    ensures short { IfSome result IsShort }
{
    let row = number(row)?;
    let column = number(column)?;
    Some(Tuple {
        row,
        column,
        plane: None,
    })
}

fn in_space(row: &[u8], column: &[u8], plane: &[u8]) -> Option<Tuple>
    ensures value { option_map numbers_of result
        ≡ all_there
        (signed_number 7 (without_outer_blanks row.now)
        ∷ signed_number 7 (without_outer_blanks column.now)
        ∷ signed_number 7 (without_outer_blanks plane.now) ∷ []) }
    ensures short { IfSome result IsShort }
{
    let row = number(row)?;
    let column = number(column)?;
    let plane = number(plane)?;
    Some(Tuple {
        row,
        column,
        plane: Some(plane),
    })
}

/// The number in one part of a tuple.
fn number(part: &[u8]) -> Option<i32>
    ensures value { result ≡ signed_number 7 (without_outer_blanks part.now) }
    ensures short { IfSome result (λ n. unsigned_abs n < 10 ^ 7) }
{
    let number = signed_number(7, trimmed(part))?;
    Some(number as i32)
}
