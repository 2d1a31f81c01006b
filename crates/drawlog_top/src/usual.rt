// Texts of the usual forms, which are read without being written again. All others are read the
// long way.
ghost use Rattle.std.specs.Prelude.{◌≡◌, ◌+◌, ◌*◌, ◌<◌, ◌≤◌, [], ◌∷◌, ◌++◌, Some, false, codes, decimal, get_or, length, pos, IfSome};
ghost use Rattle.quantity.specs.declared.bounds.TheConstants.{MAX_CELLS};
ghost use Rattle.quantity.specs.declared.value.Value.TheVariants.{Num};
ghost use Rattle.quantity.specs.ReadBack.{read_text5};

use quantity::digits::whole_number;
use quantity::{MAX_CELLS, Raw, Value};

/// The number of a digit.
#[inline(always)]
pub(crate) fn digit(c: u8) -> Option<u32>
    ensures { IfSome result (λ d. (d < 10) × (c ≡ 48 + d)) }
{
    if b'0' <= c && c <= b'9' {
        Some(u32::from(c) - 48)
    } else {
        None
    }
}

/// The value whose text this is.
#[inline(always)]
pub(crate) fn read_value(text: &[u8]) -> Option<Value>
    ensures { result ≡ read_text5 text.now }
{
    match digit_in(text) {
        Some(digit) => whole_value(digit),
        None => Value::read_text5(text),
    }
}

/// The digit of a whole number below 10 whose text this is.
#[inline(always)]
fn digit_in(text: &[u8]) -> Option<u32>
    ensures { IfSome result (λ d. (d < 10) × (text.now ≡ (48 + d) ∷ codes ".00000")) }
{
    match text {
        [c, b'.', b'0', b'0', b'0', b'0', b'0'] => digit(*c),
        _ => None,
    }
}

/// So many.
#[inline(always)]
pub(crate) fn whole_value(number: u32) -> Option<Value>
    requires { number < 10 }
    ensures { result ≡ Some (Num (pos (number * 100000))) }
{
    match Raw::new(i64::from(number * 100_000)) {
        Some(raw) => Some(Value::Num(raw)),
        None => None,
    }
}

/// The number whose decimal digits these are, where a space may have that coordinate.
#[inline(always)]
pub(crate) fn plain_number(text: &[u8]) -> Option<u32>
    ensures { IfSome result (λ n. (n < MAX_CELLS) × (text.now ≡ decimal n)) }
{
    if has_zero_in_front(text) {
        return None;
    }
    let number = whole_number(7, text)? as u32;
    if MAX_CELLS <= number {
        return None;
    }
    Some(number)
}

/// Whether a digit stands behind a zero at the head.
#[inline(always)]
fn has_zero_in_front(text: &[u8]) -> bool
    ensures { result ≡ false
        → 0 < length text.now → get_or text.now 0 0 ≡ 48 → length text.now ≡ 1 }
{
    1 < text.len() && text[0] == b'0'
}
