// Values in files, which are read word by word and line by line, and laid in their cells as they
// are read.
ghost use Rattle.std.specs.Prelude.{◌≡◌, [], ◌∷◌, length, fold, ◌<◌, IfSome, MatchOption};
ghost use Rattle.cell_grid.specs.Initial.{cell_line, cells_file, with_cell};
ghost use Rattle.cell_grid.specs.Space.{cell_count};
ghost use Rattle.cell_grid.specs.Reading.{words_left, values_for, ReadsInto, LaysRead};

use crate::Grid;
use crate::initial::InitialRefusal;
use crate::tuple_place::cell_in;
use quantity::digits::cut_at;
use quantity::{PackedValue, Value};
use source_text::line::{text_of_line, trimmed};
use source_text::tuples::tuple;
use source_text::words::next_word;

/// Words that are still to be read: those of a line, and those of the lines behind it.
#[derive(Clone, Copy)]
pub struct WordsLeft<'a> {
    pub line: &'a [u8],
    pub behind: &'a [u8],
}

/// The next word, and the words behind it. None where none is left.
fn next_left(words: WordsLeft<'_>) -> Option<(&[u8], WordsLeft<'_>)>
    ensures { MatchOption result (words_left words.entry.line.now words.entry.behind.now ≡ [])
        (λ r. words_left words.entry.line.now words.entry.behind.now
        ≡ r.0.now ∷ words_left r.1.line.now r.1.behind.now) }
{
    let mut line = words.line;
    let mut behind = words.behind;
    'lines: loop {
        if let Some((word, rest)) = next_word(line) {
            return Some((word, WordsLeft { line: rest, behind }));
        }
        if behind.is_empty() {
            return None;
        }
        let (next, others) = cut_at(b'\n', behind);
        line = text_of_line(next);
        behind = others;
    }
}

/// Lays the values of the words in the cells, one in each. BadInitial is a word that is no value,
/// and another number of words.
pub fn lay_words(cells: &mut [PackedValue], words: WordsLeft<'_>) -> Result<(), InitialRefusal>
    ensures { ReadsInto (values_for (length cells.old)
        (words_left words.entry.line.now words.entry.behind.now)) cells.new result }
{
    let mut left = words;
    for cell in cells.iter_mut() {
        let (word, behind) = next_left(left).ok_or(InitialRefusal::BadInitial)?;
        let value = Value::parse(word).ok_or(InitialRefusal::BadInitial)?;
        *cell = PackedValue::of(value);
        left = behind;
    }
    match next_left(left) {
        None => Ok(()),
        Some(_) => Err(InitialRefusal::BadInitial),
    }
}

/// The cell and the value of a line `tuple = value`. None for any other text.
fn cell_line(text: &[u8], grid: &Grid) -> Option<(u32, Value)>
    ensures value { result ≡ cell_line grid.now text.now }
    ensures inside { IfSome result (λ c. c.0 < cell_count grid.now) }
{
    let (place, value) = cut_at(b'=', text);
    let cell = cell_in(tuple(trimmed(place))?, grid)?;
    let value = Value::parse(trimmed(value))?;
    Some((cell, value))
}

/// Lays the values of a cells file in their cells, line by line. BadInitial is a line off its form.
pub fn lay_cells(values: &mut [PackedValue], file: &[u8], grid: &Grid) -> Result<(), InitialRefusal>
    requires { length values.old ≡ cell_count grid.now }
    ensures { LaysRead (fold with_cell values.old) (cells_file grid.now file.now)
        values.new result }
{
    let mut left = file;
    while !left.is_empty() {
        let (line, behind) = cut_at(b'\n', left);
        let text = text_of_line(line);
        if !text.is_empty() {
            let (cell, value) = cell_line(text, grid).ok_or(InitialRefusal::BadInitial)?;
            values[cell as usize] = PackedValue::of(value);
        }
        left = behind;
    }
    Ok(())
}
