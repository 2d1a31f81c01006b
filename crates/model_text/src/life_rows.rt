// The rows of the made model. A refusal may leave more behind what was there.
ghost use Rattle.std.specs.Prelude.{◌≡◌, [], ◌∷◌, ◌++◌, OnOk, length, map, take};
ghost use Rattle.std.specs.List.{range_with_len};
ghost use Rattle.source_text.specs.Lines.{file};
ghost use Rattle.model_text.specs.LifeModel.{made_digit, made_row};

use crate::life_lines::put_number;
use quantity::{OutOfMemory, put};

/// Appends the lines of all rows.
pub(crate) fn put_rows(n: u32, into: &mut Vec<u8>) -> Result<(), OutOfMemory>
    ensures ok { OnOk result (into.new.items
        ≡ into.old.items ++ file (map (made_row n) (range_with_len 0 n))) }
    ensures kept { take (length into.old.items) into.new.items ≡ into.old.items }
{
    for row in 0..n {
        put_row(n, row, into)?;
    }
    Ok(())
}

/// Appends the line of a row.
fn put_row(n: u32, row: u32, into: &mut Vec<u8>) -> Result<(), OutOfMemory>
    ensures ok { OnOk result (into.new.items ≡ into.old.items ++ (made_row n row ++ 10 ∷ [])) }
    ensures kept { take (length into.old.items) into.new.items ≡ into.old.items }
{
    put(b"initialrowvalue : ", into)?;
    put_number(row, into)?;
    put(b" ", into)?;
    put_digits(n, row, into)?;
    put(b"\n", into)?;
    Ok(())
}

/// Appends the digits of the cells of a row.
fn put_digits(n: u32, row: u32, into: &mut Vec<u8>) -> Result<(), OutOfMemory>
    ensures ok { OnOk result (into.new.items
        ≡ into.old.items ++ map (made_digit row) (range_with_len 0 n)) }
    ensures kept { take (length into.old.items) into.new.items ≡ into.old.items }
{
    for column in 0..n {
        put(&[digit(row, column)], into)?;
    }
    Ok(())
}

/// The digit of a cell: three in a row live in each square of five cells by five.
fn digit(row: u32, column: u32) -> u8
    ensures { result ≡ made_digit row column }
{
    let place = column % 5;
    if row % 5 == 2 && (place == 1 || place == 2 || place == 3) {
        b'1'
    } else {
        b'0'
    }
}
