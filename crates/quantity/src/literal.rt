// Numbers as people write them, in hundred-thousandths.
ghost use Rattle.std.specs.Prelude.{◌≡◌, ◌+◌, ◌*◌, ◌<◌, ◌≤◌, ◌^◌, ◌++◌, pos, unsigned_abs, length, take, replicate, IsTrue, IfSome};
ghost use Rattle.std.specs.Str.{all_ascii_digits};
ghost use Rattle.quantity.specs.ByteNames.{digit_zero};
ghost use Rattle.quantity.specs.Digits.{number_in};
ghost use Rattle.quantity.specs.Literals.{is_number_of, signed_raw, unsigned_raw};

use crate::digits::{all_are_digits, are_digits, cut_at, is_negative, number_in, without_sign};

/// The number after an optional sign, in hundred-thousandths, decimals after the fifth cut. At most
/// so many digits stand before the point; None off that form.
pub(crate) fn signed_raw(most: usize, text: &[u8]) -> Option<i64>
    requires { most ≤ 11 }
    ensures value { result ≡ signed_raw most text.now }
    ensures below { IfSome result (λ raw. unsigned_abs raw < 10 ^ (most + 5)) }
{
    let size = unsigned_raw(most, without_sign(text))?;
    let raw = size as i64;
    if is_negative(text) {
        Some(-raw)
    } else {
        Some(raw)
    }
}

/// The number without a sign, in hundred-thousandths, by the same rule.
pub(crate) fn unsigned_raw(most: usize, text: &[u8]) -> Option<u64>
    requires { most ≤ 11 }
    ensures value { result ≡ unsigned_raw most text.now }
    ensures below { IfSome result (λ raw. raw < 10 ^ (most + 5)) }
{
    let (whole, decimals) = cut_at(b'.', text);
    if !is_number(most, whole, decimals) {
        return None;
    }
    Some(number_in(whole) * 100_000 + hundred_thousandths(decimals))
}

fn is_number(most: usize, whole: &[u8], decimals: &[u8]) -> bool
    ensures value { result ≡ is_number_of most whole.now decimals.now }
    ensures digits { IsTrue result → IsTrue (all_ascii_digits whole.now)
        × IsTrue (all_ascii_digits decimals.now) }
    ensures short { IsTrue result → length whole.now ≤ most }
{
    all_are_digits(decimals)
        && (are_digits(1, most, whole) || (whole.is_empty() && !decimals.is_empty()))
}

/// The first five decimals, with zeros for those that are missing.
fn hundred_thousandths(decimals: &[u8]) -> u64
    requires { IsTrue (all_ascii_digits decimals.now) }
    ensures value { result ≡ number_in (take 5 (decimals.now ++ replicate 5 digit_zero)) }
    ensures below { result < 100000 }
{
    let mut number = 0;
    for place in 0..5 {
        let digit = decimals.get(place).copied().unwrap_or(b'0');
        number = number * 10 + u64::from(digit - b'0');
    }
    number
}
