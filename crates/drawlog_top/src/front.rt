// The parts in front of a text, each with the stroke that follows it. Each is of a usual form; any
// other is left to those who read part by part.
ghost use Rattle.std.specs.Prelude.{◌≡◌, ◌+◌, ◌<◌, [], ◌∷◌, ◌++◌, not, codes, decimal, true, IfSome, IsTrue};
ghost use Rattle.std.specs.List.{position};
ghost use Rattle.quantity.specs.Names.{is_name, is_of_name};
ghost use Rattle.quantity.specs.Times.{time_text};
ghost use Rattle.quantity.specs.TimeBounds.{IsTime};
ghost use Rattle.text_forms.specs.LogLine.{is_leaf, leaf_name_text, letter_text, state_text};
ghost use Rattle.drawlog_top.specs.Fronts.{stroke, is_state_value, IsPlaceInFront};
ghost use Rattle.drawlog_top.specs.LeafRead.{named_leaf, HasWholePlace};

use crate::leaf_name::LeafName;
use crate::log_line::read_state;
use crate::parts::word_in_front;
use crate::usual::{digit, whole_value};
use crate::usual_time::twelve_bytes;
use quantity::name::is_of_name;
use quantity::{Place, Time, Value};
use text_forms::Letter;

/// What follows this byte.
#[inline(always)]
fn behind_byte(byte: u8, text: &[u8]) -> Option<&[u8]>
    ensures { IfSome result (λ rest. text.now ≡ byte ∷ rest.now) }
{
    match text {
        [first, rest @ ..] => { if *first == byte { Some(rest) } else { None } }
        [] => None,
    }
}

/// What follows a stroke between blanks.
#[inline(always)]
fn behind_stroke(text: &[u8]) -> Option<&[u8]>
    ensures { IfSome result (λ rest. text.now ≡ stroke [] rest.now) }
{
    match text {
        [b' ', b'/', b' ', rest @ ..] => Some(rest),
        _ => None,
    }
}

/// What follows the end of coordinates and a stroke.
#[inline(always)]
fn behind_place(text: &[u8]) -> Option<&[u8]>
    ensures { IfSome result (λ rest. text.now ≡ stroke (codes ")") rest.now) }
{
    match text {
        [b')', b' ', b'/', b' ', rest @ ..] => Some(rest),
        _ => None,
    }
}

/// A name that doesn't end the text.
#[inline(always)]
fn name_in_front(text: &[u8]) -> Option<(&[u8], &[u8])>
    ensures { IfSome result (λ t. (IsTrue (is_name t.0.now)) × (text.now ≡ t.0.now ++ t.1.now)) }
{
    let end = end_of_name(text)?;
    if end == 0 || 64 < end {
        return None;
    }
    Some((&text[..end], &text[end..]))
}

/// The place of the first byte that no name has.
#[inline(always)]
fn end_of_name(text: &[u8]) -> Option<usize>
    ensures { result ≡ position (λ c. not (is_of_name c)) text.now }
{
    text.iter().position(|c| !is_of_name(*c))
}

/// One digit.
#[inline(always)]
fn digit_in_front(text: &[u8]) -> Option<(u32, &[u8])>
    ensures { IfSome result (λ t. (t.0 < 10) × (text.now ≡ (48 + t.0) ∷ t.1.now)) }
{
    match text {
        [first, rest @ ..] => {
            let number = digit(*first)?;
            Some((number, rest))
        }
        [] => None,
    }
}

/// A number of at most four digits.
#[inline(always)]
fn number_in_front(text: &[u8]) -> Option<(u32, &[u8])>
    ensures { IfSome result (λ t. (t.0 < 10000) × (text.now ≡ decimal t.0 ++ t.1.now)) }
{
    let (first, behind) = digit_in_front(text)?;
    if first == 0 {
        return Some((0, behind));
    }
    let Some((second, behind_two)) = digit_in_front(behind) else {
        return Some((first, behind));
    };
    let two = first * 10 + second;
    let Some((third, behind_three)) = digit_in_front(behind_two) else {
        return Some((two, behind_two));
    };
    let three = two * 10 + third;
    let Some((fourth, behind_four)) = digit_in_front(behind_three) else {
        return Some((three, behind_three));
    };
    Some((three * 10 + fourth, behind_four))
}

/// The letter of a line.
#[inline(always)]
pub(crate) fn letter_in_front(text: &[u8]) -> Option<(Letter, &[u8])>
    ensures { IfSome result (λ t. text.now ≡ stroke (letter_text t.0) t.1.now) }
{
    match text {
        [byte, b' ', b'/', b' ', rest @ ..] => {
            let letter = Letter::of_byte(*byte)?;
            Some((letter, rest))
        }
        _ => None,
    }
}

/// A time of twelve bytes.
#[inline(always)]
pub(crate) fn time_in_front(text: &[u8]) -> Option<(Time, &[u8])>
    ensures { IfSome result (λ t. (IsTime t.0) × (text.now ≡ stroke (time_text t.0) t.1.now)) }
{
    if text.len() < 12 {
        return None;
    }
    let time = twelve_bytes(&text[..12])?;
    let rest = behind_stroke(&text[12..])?;
    Some((time, rest))
}

/// An atomic component, or a cell of a space of two dimensions.
#[inline(always)]
pub(crate) fn leaf_in_front(text: &[u8]) -> Option<(LeafName<'_>, &[u8])>
    ensures leaf { IfSome result (λ t. (is_leaf (named_leaf t.0) ≡ true)
        × (text.now ≡ stroke (leaf_name_text (named_leaf t.0)) t.1.now)) }
    ensures whole { IfSome result (λ t. HasWholePlace t.0) }
{
    let (name, behind_name) = name_in_front(text)?;
    match behind_byte(b'(', behind_name) {
        Some(at_row) => {
            let dims = 2;
            let (place, rest) = place_in_front(at_row)?;
            Some((LeafName { name, dims, place }, rest))
        }
        None => {
            let dims = 0;
            let place = Place {
                row: 0,
                column: 0,
                plane: 0,
            };
            let rest = behind_stroke(behind_name)?;
            Some((LeafName { name, dims, place }, rest))
        }
    }
}

/// Two coordinates, and the end of a place.
#[inline(always)]
fn place_in_front(text: &[u8]) -> Option<(Place, &[u8])>
    ensures place { IfSome result (λ t. IsPlaceInFront text.now t.0.row t.0.column t.1.now) }
    ensures plane { IfSome result (λ t. t.0.plane ≡ 0) }
{
    let (row, behind_row) = number_in_front(text)?;
    let at_column = behind_byte(b',', behind_row)?;
    let (column, behind_column) = number_in_front(at_column)?;
    let rest = behind_place(behind_column)?;
    let place = Place {
        row,
        column,
        plane: 0,
    };
    Some((place, rest))
}

/// The name of a port, which most often is `out`.
#[inline(always)]
pub(crate) fn port_in_front(text: &[u8]) -> Option<(&[u8], &[u8])>
    ensures { IfSome result (λ t.
        (IsTrue (is_name t.0.now)) × (text.now ≡ stroke t.0.now t.1.now)) }
{
    match text {
        [b'o', b'u', b't', b' ', b'/', b' ', rest @ ..] => Some((b"out".as_slice(), rest)),
        _ => named_port(text),
    }
}

fn named_port(text: &[u8]) -> Option<(&[u8], &[u8])>
    ensures { IfSome result (λ t.
        (IsTrue (is_name t.0.now)) × (text.now ≡ stroke t.0.now t.1.now)) }
{
    let (name, behind_name) = name_in_front(text)?;
    let rest = behind_stroke(behind_name)?;
    Some((name, rest))
}

/// The state in front of a text, and what follows its stroke. Most often it is a whole number below
/// 10.
#[inline(always)]
pub(crate) fn state_in_front(text: &[u8]) -> Option<(Option<Value>, &[u8])>
    ensures { IfSome result (λ t. (is_state_value t.0 ≡ true)
        × (text.now ≡ stroke (state_text t.0) t.1.now)) }
{
    let Some((byte, rest)) = whole_in_front(text) else {
        return written_state(text);
    };
    let number = digit(byte)?;
    let value = whole_value(number)?;
    Some((Some(value), rest))
}

/// The byte in front of `.00000` and a stroke, as the one digit of a whole number stands, and what
/// follows the stroke. Whether it is a digit isn't looked at.
#[inline(always)]
fn whole_in_front(text: &[u8]) -> Option<(u8, &[u8])>
    ensures { IfSome result (λ t. text.now ≡ t.0 ∷ (codes ".00000" ++ stroke [] t.1.now)) }
{
    match text {
        [
            byte,
            b'.',
            b'0',
            b'0',
            b'0',
            b'0',
            b'0',
            b' ',
            b'/',
            b' ',
            rest @ ..,
        ] => { Some((*byte, rest)) }
        _ => None,
    }
}

/// The state in front of a text, of any form, and what follows its stroke.
fn written_state(text: &[u8]) -> Option<(Option<Value>, &[u8])>
    ensures { IfSome result (λ t. (is_state_value t.0 ≡ true)
        × (text.now ≡ stroke (state_text t.0) t.1.now)) }
{
    let (word, rest) = word_in_front(text)?;
    let state = read_state(word)?;
    Some((state, rest))
}
