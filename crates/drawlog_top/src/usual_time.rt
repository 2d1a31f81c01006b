// Times of the usual form, two digits of hours, which are read without being written again. All
// others are read the long way.
ghost use Rattle.std.specs.Prelude.{◌≡◌, ◌+◌, ◌/◌, ◌%◌, ◌<◌, true, IfSome};
ghost use Rattle.quantity.specs.Times.{read_time, time_text};
ghost use Rattle.quantity.specs.TimeBounds.{IsTime};
ghost use Rattle.drawlog_top.specs.UsualTimes.{IsMadeOf, IsMarked};

use crate::usual::digit;
use quantity::Time;

/// The time whose text this is.
#[inline(always)]
pub(crate) fn read_time(text: &[u8]) -> Option<Time>
    ensures { result ≡ read_time text.now }
{
    match twelve_bytes(text) {
        Some(time) => Some(time),
        None => Time::read_text(text),
    }
}

/// The time whose text these twelve bytes are.
#[inline(always)]
pub(crate) fn twelve_bytes(text: &[u8]) -> Option<Time>
    ensures { IfSome result (λ t. (IsTime t) × (text.now ≡ time_text t)) }
{
    if !has_marks(text) {
        return None;
    }
    let hours = two_digits(text[0], text[1])?;
    let minutes = two_digits(text[3], text[4])?;
    let seconds = two_digits(text[6], text[7])?;
    let milliseconds = three_digits(text[9], text[10], text[11])?;
    let time = total(hours, minutes, seconds, milliseconds)?;
    Some(time)
}

/// Whether the text has twelve bytes, and marks where hours, minutes and seconds of two digits end.
#[inline(always)]
fn has_marks(text: &[u8]) -> bool
    ensures { result ≡ true → IsMarked text.now }
{
    text.len() == 12 && text[2] == b':' && text[5] == b':' && text[8] == b':'
}

/// The number of two digits.
#[inline(always)]
fn two_digits(tens: u8, ones: u8) -> Option<u32>
    ensures { IfSome result (λ n. (n < 100) × (tens ≡ 48 + n / 10 % 10) × (ones ≡ 48 + n % 10)) }
{
    let tens = digit(tens)?;
    let ones = digit(ones)?;
    Some(tens * 10 + ones)
}

/// The number of three digits.
#[inline(always)]
fn three_digits(hundreds: u8, tens: u8, ones: u8) -> Option<u32>
    ensures { IfSome result (λ n. (n < 1000) × (hundreds ≡ 48 + n / 10 / 10 % 10)
        × (tens ≡ 48 + n / 10 % 10) × (ones ≡ 48 + n % 10)) }
{
    let above = two_digits(hundreds, tens)?;
    let ones = digit(ones)?;
    Some(above * 10 + ones)
}

/// All in milliseconds, where the minutes and the seconds are parts of an hour and a minute.
#[inline(always)]
fn total(hours: u32, minutes: u32, seconds: u32, milliseconds: u32) -> Option<Time>
    requires hours { hours < 100 }
    requires milliseconds { milliseconds < 1000 }
    ensures { IfSome result (λ t. IsMadeOf t hours minutes seconds milliseconds) }
{
    if 60 <= minutes || 60 <= seconds {
        return None;
    }
    Time::new(((hours * 60 + minutes) * 60 + seconds) * 1000 + milliseconds)
}
