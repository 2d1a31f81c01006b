// Texts that are written behind the first bytes of a row. Each call answers where its text ends.
ghost use Rattle.std.specs.Prelude.{◌≡◌, ◌+◌, ◌<◌, ◌≤◌, [], ◌∷◌, decimal, length};
ghost use Rattle.text_forms.specs.Placed.{IsShort, Placed, short_text};

use quantity::Place;

/// Writes a text.
#[inline(always)]
pub(crate) fn write(bytes: &mut [u8], at: usize, text: &[u8]) -> usize
    requires { at + length text.now ≤ length bytes.old }
    ensures { Placed bytes.old bytes.new at text.now result }
{
    let end = at + text.len();
    bytes[at..end].copy_from_slice(text);
    end
}

#[inline(always)]
fn write_byte(bytes: &mut [u8], at: usize, byte: u8) -> usize
    requires { at < length bytes.old }
    ensures { Placed bytes.old bytes.new at (byte ∷ []) result }
{
    bytes[at] = byte;
    at + 1
}

/// Writes row and column of a place, which have at most three digits each, and what stands behind
/// them in a line.
#[inline(always)]
pub(crate) fn write_place(bytes: &mut [u8], at: usize, place: &Place) -> usize
    requires short { IsShort place.now }
    requires room { at + 11 ≤ length bytes.old }
    ensures text { Placed bytes.old bytes.new at (short_text place.now) result }
    ensures near { result ≤ at + 11 }
{
    let row_end = write_number(bytes, at, place.row);
    let column = write_byte(bytes, row_end, b',');
    let column_end = write_number(bytes, column, place.column);
    write(bytes, column_end, b") / ")
}

/// Writes a number of at most three digits.
#[inline(always)]
fn write_number(bytes: &mut [u8], at: usize, number: u32) -> usize
    requires small { number < 1000 }
    requires room { at + 3 ≤ length bytes.old }
    ensures text { Placed bytes.old bytes.new at (decimal number) result }
    ensures near { result ≤ at + 3 }
{
    if number < 10 {
        return write_byte(bytes, at, b'0' + number as u8);
    }
    if number < 100 {
        return write_two(bytes, at, number);
    }
    let last = write_two(bytes, at, number / 10);
    write_byte(bytes, last, b'0' + (number % 10) as u8)
}

/// Writes a number of two digits.
#[inline(always)]
fn write_two(bytes: &mut [u8], at: usize, number: u32) -> usize
    requires two { (10 ≤ number) × (number < 100) }
    requires room { at + 2 ≤ length bytes.old }
    ensures { Placed bytes.old bytes.new at (decimal number) result }
{
    let last = write_byte(bytes, at, b'0' + (number / 10) as u8);
    write_byte(bytes, last, b'0' + (number % 10) as u8)
}
