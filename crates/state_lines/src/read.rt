// Words of a line, read one after another. What is read may be more than what is written: the line
// of what was read is compared with the line.
ghost use Rattle.std.specs.Prelude.{◌≡◌, ℕ, ◌∷◌, [], ◌<◌, ◌≤◌, ◌^◌, map, drop, IfOk, IfSome};
ghost use Rattle.std.specs.Prelude.{MatchOption};
ghost use Rattle.std.specs.Option.{option_map};
ghost use Rattle.quantity.specs.declared.bounds.TheConstants.{MAX_TIME};
ghost use Rattle.quantity.specs.ValueTexts.{guessed_value, signed_in};
ghost use Rattle.quantity.specs.Written.{is_digit, number_up_to};
ghost use Rattle.cell_table.specs.Saved.{cell_of_saved, port_of_saved};
ghost use Rattle.text_forms.specs.StateOf.{all_in, pairs_in, port_state_in, ports_in};
ghost use Rattle.state_lines.specs.Left.{all_left, left_size, cell_in, one_in, pair_in, IsReadTo};

use crate::literal::guessed_value;
use cell_table::{CellState, PortState};
use quantity::{MAX_TIME, OutOfMemory, Time, Value};
use source_text::cut::part_before;
use std::alloc::{AllocError, Global};

/// What is left of a line: words between single blanks, and nothing behind the last.
#[derive(Drop)]
pub(crate) struct Words<'a> {
    pub left: Option<&'a [u8]>,
}

/// The state of a cell with so many ports, as the words that are left say it.
pub(crate) fn read_cell(
    alloc: Global,
    ports: usize,
    words: &mut Words<'_>,
) -> Result<Option<CellState>, OutOfMemory>
    ensures { IfOk result (λ found. cell_in ports (all_left words.old)
        ≡ option_map cell_of_saved found) }
{
    let Some(ports) = read_ports(alloc, ports, words)? else {
        return Ok(None);
    };
    let Some(variables) = read_values(alloc, words)? else {
        return Ok(None);
    };
    Ok(Some(CellState { ports, variables }))
}

/// The numbers of a box's state, as the words that are left say them.
pub(crate) fn read_numbers(
    alloc: Global,
    words: &mut Words<'_>,
) -> Result<Option<Vec<i64>>, OutOfMemory>
    ensures { IfOk result (λ found. all_in (signed_in (10 ^ 17)) (all_left words.old)
        ≡ option_map (λ v. v.items) found) }
{
    let mut numbers = Vec::new(alloc);
    while let Some(word) = next_word(words) {
        let Some(number) = signed_number(word) else {
            return Ok(None);
        };
        let Ok(()) = numbers.push(number) else {
            return Err(OutOfMemory);
        };
    }
    Ok(Some(numbers))
}

/// All words that are left, as values.
fn read_values(alloc: Global, words: &mut Words<'_>) -> Result<Option<Vec<Value>>, OutOfMemory>
    ensures { IfOk result (λ found. all_in guessed_value (all_left words.old)
        ≡ option_map (λ v. v.items) found) }
{
    let mut values = Vec::new(alloc);
    while let Some(word) = next_word(words) {
        let Some(value) = guessed_value(word) else {
            return Ok(None);
        };
        let Ok(()) = values.push(value) else {
            return Err(OutOfMemory);
        };
    }
    Ok(Some(values))
}

/// So many ports.
fn read_ports(
    alloc: Global,
    count: usize,
    words: &mut Words<'_>,
) -> Result<Option<Vec<PortState>>, OutOfMemory>
    ensures { IfOk result (λ found. IsReadTo (ports_in count (all_left words.old))
        (all_left words.new) (option_map (λ v. map port_of_saved v.items) found)) }
{
    let mut ports = Vec::new(alloc);
    let mut missing = count;
    while missing > 0 {
        let Some(port) = next_port(alloc, words)? else {
            return Ok(None);
        };
        ports.push(port).map_err(AllocError::from)?;
        missing -= 1;
    }
    Ok(Some(ports))
}

/// The next port.
fn next_port(alloc: Global, words: &mut Words<'_>) -> Result<Option<PortState>, OutOfMemory>
    ensures { IfOk result
        (λ found. IsReadTo (port_state_in (all_left words.old)) (all_left words.new)
        (option_map port_of_saved found)) }
{
    let Some(emitted) = next_value(words) else {
        return Ok(None);
    };
    let Some(computed) = next_value(words) else {
        return Ok(None);
    };
    let Some(count) = next_number(1_000_000_000, words) else {
        return Ok(None);
    };
    let Some(pairs) = read_pairs(alloc, count, words)? else {
        return Ok(None);
    };
    Ok(Some(PortState {
        emitted,
        computed,
        pairs,
    }))
}

/// So many pairs of a delay list.
fn read_pairs(
    alloc: Global,
    count: u64,
    words: &mut Words<'_>,
) -> Result<Option<Vec<(Time, Value)>>, OutOfMemory>
    ensures { IfOk result (λ found. IsReadTo (pairs_in count (all_left words.old))
        (all_left words.new) (option_map (λ v. v.items) found)) }
{
    let mut pairs = Vec::new(alloc);
    let mut missing = count;
    while missing > 0 {
        let Some(pair) = next_pair(words) else {
            return Ok(None);
        };
        let Ok(()) = pairs.push(pair) else {
            return Err(OutOfMemory);
        };
        missing -= 1;
    }
    Ok(Some(pairs))
}

/// The next pair.
fn next_pair(words: &mut Words<'_>) -> Option<(Time, Value)>
    ensures { IsReadTo (pair_in (all_left words.old)) (all_left words.new) result }
{
    let time = next_time(words)?;
    let value = next_value(words)?;
    Some((time, value))
}

/// The next word, as a time.
fn next_time(words: &mut Words<'_>) -> Option<Time>
    ensures { IsReadTo (one_in (number_up_to MAX_TIME) (all_left words.old)) (all_left words.new)
        result }
{
    let number = next_number(u64::from(MAX_TIME), words)?;
    Time::new(number as u32)
}

/// The next word, as a number that is at most so large.
fn next_number(most: u64, words: &mut Words<'_>) -> Option<u64>
    requires { most ≤ 10 ^ 17 }
    ensures value { IsReadTo (one_in (number_up_to most) (all_left words.old)) (all_left words.new)
        result }
    ensures small { IfSome result (λ n. n ≤ most) }
{
    let word = next_word(words)?;
    number_up_to(most, word)
}

/// The next word, as a value.
fn next_value(words: &mut Words<'_>) -> Option<Value>
    ensures { IsReadTo (one_in guessed_value (all_left words.old)) (all_left words.new) result }
{
    let word = next_word(words)?;
    guessed_value(word)
}

/// The next word, and it is left no more.
pub(crate) fn next_word<'a>(words: &mut Words<'a>) -> Option<&'a [u8]>
    ensures value { MatchOption result (all_left words.old ≡ [])
        (λ word. all_left words.old ≡ word.now ∷ all_left words.new) }
    ensures rest { all_left words.new ≡ drop 1 (all_left words.old) }
    ensures shorter { IfSome result (λ word. left_size words.new < left_size words.old) }
{
    let text = words.left?;
    match part_before(b' ', text) {
        None => {
            words.left = None;
            Some(text)
        }
        Some((word, behind)) => {
            words.left = Some(behind);
            Some(word)
        }
    }
}

/// The number that these digits write behind an optional minus, at most 10^17 in size.
fn signed_number(text: &[u8]) -> Option<i64>
    ensures { result ≡ signed_in (10 ^ 17) text.now }
{
    match text {
        [b'-', digits @ ..] => {
            let size = number_up_to(100_000_000_000_000_000, digits)?;
            Some(-(size as i64))
        }
        _ => {
            let size = number_up_to(100_000_000_000_000_000, text)?;
            Some(size as i64)
        }
    }
}

/// The number that these digits write, where it is at most so large.
fn number_up_to(most: u64, text: &[u8]) -> Option<u64>
    requires { most ≤ 10 ^ 17 }
    ensures value { result ≡ number_up_to most text.now }
    ensures small { IfSome result (λ n. n ≤ most) }
{
    if text.is_empty() {
        return None;
    }
    let mut number = 0u64;
    for digit in text {
        if !is_digit(*digit) {
            return None;
        }
        number = number * 10 + u64::from(*digit - b'0');
        if number > most {
            return None;
        }
    }
    Some(number)
}

/// Whether this is a decimal digit.
fn is_digit(byte: u8) -> bool
    ensures { result ≡ is_digit byte }
{
    b'0' <= byte && byte <= b'9'
}
