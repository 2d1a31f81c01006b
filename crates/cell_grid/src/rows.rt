// Rows of values, in two dimensions alone.
ghost use Rattle.std.specs.Prelude.{◌≡◌, ◌<◌, Some, None, List, length, map, is_some, Option};
ghost use Rattle.std.specs.Prelude.{IfNone, IfSome};
ghost use Rattle.std.specs.List.{list_all};
ghost use Rattle.quantity.specs.Bytes.{words};
ghost use Rattle.quantity.specs.Digits.{whole_number};
ghost use Rattle.quantity.specs.declared.value.Value.{Value as CellValue};
ghost use Rattle.cell_grid.specs.Initial.{digit_value, row_digits, row_of_space, row_values, with_row};
ghost use Rattle.cell_grid.specs.Space.{cell_count, dims_of};
ghost use Rattle.cell_grid.specs.Reading.{all_of, values_for, ReadsInto, LaysRead};

use crate::Grid;
use crate::files::{WordsLeft, lay_words};
use crate::initial::InitialRefusal;
use quantity::digits::whole_number;
use quantity::{PackedValue, Value};
use source_text::words::next_word;

/// The row of this number. None where it is no number of a row of a space in two dimensions.
fn row_number(number: &[u8], grid: &Grid) -> Option<u32>
    ensures none { IfNone result ((values : Option (List CellValue))
        → row_of_space grid.now (whole_number 7 number.now) values ≡ None) }
    ensures number { IfSome result (λ row. whole_number 7 number.now ≡ Some row) }
    ensures dims { IfSome result (λ _. dims_of grid.now ≡ 2) }
    ensures below { IfSome result (λ row. row < grid.now.rows) }
{
    let row = whole_number(7, number)? as u32;
    if grid.dims() == 2 && row < grid.rows() {
        Some(row)
    } else {
        None
    }
}

/// Whether a text is a row's number and a digit or `?` for each of its cells, so that
/// `Initial::row_digits` accepts it. In three dimensions no text is.
pub fn is_row_digits(text: &[u8], grid: &Grid) -> bool
    ensures { result ≡ is_some (row_digits grid.now text.now) }
{
    let Some((number, rest)) = next_word(text) else {
        return false;
    };
    let Some((chars, rest)) = next_word(rest) else {
        return false;
    };
    if next_word(rest).is_some() {
        return false;
    }
    if row_number(number, grid).is_none() {
        return false;
    }
    are_digits(grid.columns() as usize, chars)
}

/// Whether a text is a row's number and a value for each of its cells, between blanks, so that
/// `Initial::row_values` accepts it. In three dimensions no text is.
pub fn is_row_values(text: &[u8], grid: &Grid) -> bool
    ensures { result ≡ is_some (row_values grid.now text.now) }
{
    let Some((number, rest)) = next_word(text) else {
        return false;
    };
    if row_number(number, grid).is_none() {
        return false;
    }
    are_values(grid.columns() as usize, rest)
}

/// Whether these are so many digits or `?`.
fn are_digits(columns: usize, chars: &[u8]) -> bool
    ensures { result ≡ is_some (all_of columns (map digit_value chars.now)) }
{
    (chars.len() == columns) & all_digits(chars)
}

fn all_digits(chars: &[u8]) -> bool
    ensures { result ≡ list_all (λ char. is_some (digit_value char)) chars.now }
{
    chars.iter().all(|char| is_digit(*char))
}

fn is_digit(char: u8) -> bool
    ensures { result ≡ is_some (digit_value char) }
{
    Value::parse(&[char]).is_some()
}

/// Whether the words of a text are so many values.
fn are_values(columns: usize, text: &[u8]) -> bool
    ensures { result ≡ is_some (values_for columns (words text.now)) }
{
    let mut left = text;
    for _number in 0..columns {
        let Some((word, behind)) = next_word(left) else {
            return false;
        };
        let Some(_value) = Value::parse(word) else {
            return false;
        };
        left = behind;
    }
    match next_word(left) {
        None => true,
        Some(_) => false,
    }
}

/// Lays a digit or `?` in each cell.
fn lay_digits(cells: &mut [PackedValue], chars: &[u8]) -> Result<(), InitialRefusal>
    ensures { ReadsInto (all_of (length cells.old) (map digit_value chars.now))
        cells.new result }
{
    if chars.len() != cells.len() {
        return Err(InitialRefusal::BadInitial);
    }
    for (place, cell) in cells.iter_mut().enumerate() {
        let value = Value::parse(&chars[place..place + 1]).ok_or(InitialRefusal::BadInitial)?;
        *cell = PackedValue::of(value);
    }
    Ok(())
}

/// Lays a row's digits: its number, and then a digit or `?` for each of its cells.
pub(crate) fn lay_row_digits(
    values: &mut [PackedValue],
    text: &[u8],
    grid: &Grid,
) -> Result<(), InitialRefusal>
    requires { length values.old ≡ cell_count grid.now }
    ensures { LaysRead (with_row grid.now values.old) (row_digits grid.now text.now)
        values.new result }
{
    let (number, rest) = next_word(text).ok_or(InitialRefusal::BadInitial)?;
    let (chars, rest) = next_word(rest).ok_or(InitialRefusal::BadInitial)?;
    if next_word(rest).is_some() {
        return Err(InitialRefusal::BadInitial);
    }
    let row = row_number(number, grid).ok_or(InitialRefusal::BadInitial)?;
    let columns = grid.columns() as usize;
    let start = row as usize * columns;
    lay_digits(&mut values[start..start + columns], chars)
}

/// Lays a row's values: its number, and then a value for each of its cells.
pub(crate) fn lay_row_values(
    values: &mut [PackedValue],
    text: &[u8],
    grid: &Grid,
) -> Result<(), InitialRefusal>
    requires { length values.old ≡ cell_count grid.now }
    ensures { LaysRead (with_row grid.now values.old) (row_values grid.now text.now)
        values.new result }
{
    let (number, rest) = next_word(text).ok_or(InitialRefusal::BadInitial)?;
    let row = row_number(number, grid).ok_or(InitialRefusal::BadInitial)?;
    let columns = grid.columns() as usize;
    let start = row as usize * columns;
    let words = WordsLeft {
        line: rest,
        behind: &[],
    };
    lay_words(&mut values[start..start + columns], words)
}
