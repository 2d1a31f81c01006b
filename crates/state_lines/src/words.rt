// Words of a line, each behind a blank. A refusal may leave more behind what was there.
ghost use Rattle.std.specs.Prelude.{◌≡◌, ◌∷◌, [], ◌++◌, length, map, take, decimal, OnOk};
ghost use Rattle.std.specs.Fmt.{signed_decimal};
ghost use Rattle.std.specs.List.{flat_map};
ghost use Rattle.quantity.specs.ValueTexts.{text5};
ghost use Rattle.cell_table.specs.Saved.{port_of_saved};
ghost use Rattle.text_forms.specs.StateText.{pair_words, port_words};
ghost use Rattle.state_lines.specs.Words.{spaced_words};

use cell_table::PortState;
use itoa::Buffer;
use quantity::{OutOfMemory, Time, Value, put};

/// Appends a value.
fn put_value(value: Value, into: &mut Vec<u8>) -> Result<(), OutOfMemory>
    ensures ok { OnOk result (into.new.items ≡ into.old.items ++ spaced_words (text5 value ∷ [])) }
    ensures kept { take (length into.old.items) into.new.items ≡ into.old.items }
{
    put(b" ", into)?;
    value.text5(into)
}

/// Appends a number.
fn put_number(n: u64, into: &mut Vec<u8>) -> Result<(), OutOfMemory>
    ensures ok { OnOk result (into.new.items ≡ into.old.items ++ spaced_words (decimal n ∷ [])) }
    ensures kept { take (length into.old.items) into.new.items ≡ into.old.items }
{
    let mut buffer = Buffer::new();
    put(b" ", into)?;
    put(buffer.format(n).as_bytes(), into)
}

/// Appends a word of a box's state.
fn put_word(word: i64, into: &mut Vec<u8>) -> Result<(), OutOfMemory>
    ensures ok { OnOk result (into.new.items
        ≡ into.old.items ++ spaced_words (signed_decimal word ∷ [])) }
    ensures kept { take (length into.old.items) into.new.items ≡ into.old.items }
{
    let mut buffer = Buffer::new();
    put(b" ", into)?;
    put(buffer.format(word).as_bytes(), into)
}

/// Appends a pair of a delay list: its time in milliseconds, and its value.
fn put_pair(pair: &(Time, Value), into: &mut Vec<u8>) -> Result<(), OutOfMemory>
    ensures ok { OnOk result
        (into.new.items ≡ into.old.items ++ spaced_words (pair_words pair.now)) }
    ensures kept { take (length into.old.items) into.new.items ≡ into.old.items }
{
    put_number(pair.0.ms() as u64, into)?;
    put_value(pair.1, into)
}

/// Appends the pairs of a delay list.
fn put_pairs(pairs: &[(Time, Value)], into: &mut Vec<u8>) -> Result<(), OutOfMemory>
    ensures ok { OnOk result (into.new.items
        ≡ into.old.items ++ spaced_words (flat_map pair_words pairs.now)) }
    ensures kept { take (length into.old.items) into.new.items ≡ into.old.items }
{
    for pair in pairs {
        put_pair(pair, into)?;
    }
    Ok(())
}

/// Appends a port of a cell: what it gave and computed last, how many pairs wait, and each of them.
fn put_port(port: &PortState, into: &mut Vec<u8>) -> Result<(), OutOfMemory>
    ensures ok { OnOk result (into.new.items
        ≡ into.old.items ++ spaced_words (port_words (port_of_saved port.now))) }
    ensures kept { take (length into.old.items) into.new.items ≡ into.old.items }
{
    put_value(port.emitted, into)?;
    put_value(port.computed, into)?;
    put_number(port.pairs.len() as u64, into)?;
    put_pairs(&port.pairs, into)
}

/// Appends the ports of a cell.
pub(crate) fn put_ports(ports: &[PortState], into: &mut Vec<u8>) -> Result<(), OutOfMemory>
    ensures ok { OnOk result (into.new.items
        ≡ into.old.items ++ spaced_words (flat_map port_words (map port_of_saved ports.now))) }
    ensures kept { take (length into.old.items) into.new.items ≡ into.old.items }
{
    for port in ports {
        put_port(port, into)?;
    }
    Ok(())
}

/// Appends the variables of a cell.
pub(crate) fn put_values(values: &[Value], into: &mut Vec<u8>) -> Result<(), OutOfMemory>
    ensures ok { OnOk result (into.new.items
        ≡ into.old.items ++ spaced_words (map text5 values.now)) }
    ensures kept { take (length into.old.items) into.new.items ≡ into.old.items }
{
    for value in values {
        put_value(*value, into)?;
    }
    Ok(())
}

/// Appends the words of a box's state.
pub(crate) fn put_words(words: &[i64], into: &mut Vec<u8>) -> Result<(), OutOfMemory>
    ensures ok { OnOk result (into.new.items
        ≡ into.old.items ++ spaced_words (map signed_decimal words.now)) }
    ensures kept { take (length into.old.items) into.new.items ≡ into.old.items }
{
    for word in words {
        put_word(*word, into)?;
    }
    Ok(())
}
