// Whole numbers in texts.
ghost use Rattle.std.specs.Prelude.{◌≡◌, ◌<◌, ◌≤◌, ◌^◌, length, unsigned_abs, IsTrue, IfSome};
ghost use Rattle.std.specs.List.{before_first, after_first, list_all, position};
ghost use Rattle.std.specs.Char.{is_ascii_digit};
ghost use Rattle.std.specs.Str.{all_ascii_digits};
ghost use Rattle.quantity.specs.ByteNames.{minus_sign};
ghost use Rattle.quantity.specs.Bytes.{begins_with, is_byte};
ghost use Rattle.quantity.specs.Digits.{are_digits, number_in, signed_number, whole_number, without_sign};

/// The number of 1 to `most` decimal digits; None where the text is anything else.
pub fn whole_number(most: usize, text: &[u8]) -> Option<u64>
    requires { most ≤ 18 }
    ensures value { result ≡ whole_number most text.now }
    ensures below { IfSome result (λ n. n < 10 ^ most) }
{
    if are_digits(1, most, text) {
        Some(number_in(text))
    } else {
        None
    }
}

/// The number of 1 to `most` decimal digits after an optional sign; None where the text is anything
/// else.
pub fn signed_number(most: usize, text: &[u8]) -> Option<i64>
    requires { most ≤ 18 }
    ensures value { result ≡ signed_number most text.now }
    ensures below { IfSome result (λ n. unsigned_abs n < 10 ^ most) }
{
    let size = whole_number(most, without_sign(text))?;
    let number = size as i64;
    if is_negative(text) {
        Some(-number)
    } else {
        Some(number)
    }
}

/// The text without a sign at its head.
pub(crate) fn without_sign(text: &[u8]) -> &[u8]
    ensures { result.now ≡ without_sign text.now }
{
    match text {
        [b'+' | b'-', unsigned @ ..] => unsigned,
        _ => text,
    }
}

/// Whether the text begins with a minus.
pub(crate) fn is_negative(text: &[u8]) -> bool
    ensures { result ≡ begins_with minus_sign text.now }
{
    matches!(text, [b'-', ..])
}

/// Whether the text has at least `least` and at most `most` bytes, and each is a digit.
pub(crate) fn are_digits(least: usize, most: usize, text: &[u8]) -> bool
    ensures { result ≡ are_digits least most text.now }
{
    least <= text.len() && text.len() <= most && all_are_digits(text)
}

/// Whether all bytes are decimal digits.
pub(crate) fn all_are_digits(text: &[u8]) -> bool
    ensures { result ≡ all_ascii_digits text.now }
{
    each_is_digit(text)
}

fn each_is_digit(text: &[u8]) -> bool
    ensures { result ≡ list_all is_ascii_digit text.now }
{
    text.iter().all(|c| c.is_ascii_digit())
}

/// The number that these digits stand for.
pub(crate) fn number_in(digits: &[u8]) -> u64
    requires digits { IsTrue (all_ascii_digits digits.now) }
    requires short { length digits.now ≤ 18 }
    ensures value { result ≡ number_in digits.now }
    ensures below { result < 10 ^ length digits.now }
{
    let mut number = 0;
    for digit in digits {
        number = number * 10 + u64::from(*digit - b'0');
    }
    number
}

/// What stands before the first such byte, and what stands after it: all and nothing where there is
/// none.
pub fn cut_at(byte: u8, text: &[u8]) -> (&[u8], &[u8])
    ensures before { result.0.now ≡ before_first (is_byte byte) text.now }
    ensures after { result.1.now ≡ after_first (is_byte byte) text.now }
{
    match first_place(byte, text) {
        Some(at) => (&text[..at], &text[at + 1..]),
        None => (text, &[]),
    }
}

fn first_place(byte: u8, text: &[u8]) -> Option<usize>
    ensures { result ≡ position (is_byte byte) text.now }
{
    text.iter().position(|c| byte == *c)
}
