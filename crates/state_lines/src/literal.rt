// The value that a text may be the text of: what `quantity` guesses before it compares, which it
// doesn't hand out.
ghost use Rattle.std.specs.Prelude.{◌≡◌, ◌+◌, ◌*◌, ◌<◌, ◌≤◌, ◌^◌, ◌++◌, pos, unsigned_abs, codes};
ghost use Rattle.std.specs.Prelude.{length, take, replicate, IsTrue, IfSome};
ghost use Rattle.std.specs.Char.{is_ascii_digit};
ghost use Rattle.std.specs.List.{list_all};
ghost use Rattle.std.specs.Str.{all_ascii_digits, bytes_eq};
ghost use Rattle.quantity.specs.ByteNames.{digit_zero, minus_sign};
ghost use Rattle.quantity.specs.Bytes.{begins_with};
ghost use Rattle.quantity.specs.Digits.{are_digits, number_in, without_sign};
ghost use Rattle.quantity.specs.Literals.{is_number_of, signed_raw, unsigned_raw};
ghost use Rattle.quantity.specs.ValueTexts.{guessed_value};

use quantity::digits::cut_at;
use quantity::{Raw, Value};

/// The one value whose text this can be.
pub(crate) fn guessed_value(text: &[u8]) -> Option<Value>
    ensures { result ≡ guessed_value text.now }
{
    if is_question_mark(text) {
        return Some(Value::Undefined);
    }
    let raw = Raw::new(signed_raw(11, text)?)?;
    Some(Value::Num(raw))
}

fn is_question_mark(text: &[u8]) -> bool
    ensures { result ≡ bytes_eq text.now (codes "?") }
{
    text == b"?".as_slice()
}

/// The number after an optional sign, in hundred-thousandths, decimals after the fifth cut. At most
/// so many digits stand before the point; None off that form.
fn signed_raw(most: usize, text: &[u8]) -> Option<i64>
    requires { most ≤ 11 }
    ensures value { result ≡ signed_raw most text.now }
    ensures below { IfSome result (λ raw. unsigned_abs raw < 10 ^ (most + 5)) }
{
    let size = unsigned_raw(most, without_sign(text))?;
    let raw = size as i64;
    if is_negative(text) {
        Some(-raw)
    } else {
        Some(raw)
    }
}

/// The number without a sign, in hundred-thousandths, by the same rule.
fn unsigned_raw(most: usize, text: &[u8]) -> Option<u64>
    requires { most ≤ 11 }
    ensures value { result ≡ unsigned_raw most text.now }
    ensures below { IfSome result (λ raw. raw < 10 ^ (most + 5)) }
{
    let (whole, decimals) = cut_at(b'.', text);
    if !is_number(most, whole, decimals) {
        return None;
    }
    Some(number_in(whole) * 100_000 + hundred_thousandths(decimals))
}

fn is_number(most: usize, whole: &[u8], decimals: &[u8]) -> bool
    ensures value { result ≡ is_number_of most whole.now decimals.now }
    ensures digits { IsTrue result → IsTrue (all_ascii_digits whole.now)
        × IsTrue (all_ascii_digits decimals.now) }
    ensures short { IsTrue result → length whole.now ≤ most }
{
    all_are_digits(decimals)
        && (are_digits(1, most, whole) || (whole.is_empty() && !decimals.is_empty()))
}

/// The first five decimals, with zeros for those that are missing.
fn hundred_thousandths(decimals: &[u8]) -> u64
    requires { IsTrue (all_ascii_digits decimals.now) }
    ensures value { result ≡ number_in (take 5 (decimals.now ++ replicate 5 digit_zero)) }
    ensures below { result < 100000 }
{
    let mut number = 0;
    for place in 0..5 {
        let digit = decimals.get(place).copied().unwrap_or(b'0');
        number = number * 10 + u64::from(digit - b'0');
    }
    number
}

/// The text without a sign at its head.
fn without_sign(text: &[u8]) -> &[u8]
    ensures { result.now ≡ without_sign text.now }
{
    match text {
        [b'+' | b'-', unsigned @ ..] => unsigned,
        _ => text,
    }
}

/// Whether the text begins with a minus.
fn is_negative(text: &[u8]) -> bool
    ensures { result ≡ begins_with minus_sign text.now }
{
    matches!(text, [b'-', ..])
}

/// Whether the text has at least `least` and at most `most` bytes, and each is a digit.
fn are_digits(least: usize, most: usize, text: &[u8]) -> bool
    ensures { result ≡ are_digits least most text.now }
{
    least <= text.len() && text.len() <= most && all_are_digits(text)
}

fn all_are_digits(text: &[u8]) -> bool
    ensures { result ≡ all_ascii_digits text.now }
{
    each_is_digit(text)
}

fn each_is_digit(text: &[u8]) -> bool
    ensures { result ≡ list_all is_ascii_digit text.now }
{
    text.iter().all(|c| c.is_ascii_digit())
}

/// The number that these digits stand for.
fn number_in(digits: &[u8]) -> u64
    requires digits { IsTrue (all_ascii_digits digits.now) }
    requires short { length digits.now ≤ 18 }
    ensures value { result ≡ number_in digits.now }
    ensures below { result < 10 ^ length digits.now }
{
    let mut number = 0;
    for digit in digits {
        number = number * 10 + u64::from(*digit - b'0');
    }
    number
}
