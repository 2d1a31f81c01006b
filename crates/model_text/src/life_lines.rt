// Lines that are appended to a text. A refusal may leave more behind what was there.
ghost use Rattle.std.specs.Prelude.{◌≡◌, [], ◌∷◌, ◌++◌, OnOk, length, take, decimal};
ghost use Rattle.source_text.specs.Lines.{file};
ghost use Rattle.model_text.specs.Texts.{texts};

use itoa::Buffer;
use quantity::{OutOfMemory, put};

/// Appends lines, each with its end.
pub(crate) fn put_lines(lines: &[&[u8]], into: &mut Vec<u8>) -> Result<(), OutOfMemory>
    ensures ok { OnOk result (into.new.items ≡ into.old.items ++ file (texts lines.now)) }
    ensures kept { take (length into.old.items) into.new.items ≡ into.old.items }
{
    for line in lines {
        put_line(line, into)?;
    }
    Ok(())
}

/// Appends a line with its end.
fn put_line(line: &[u8], into: &mut Vec<u8>) -> Result<(), OutOfMemory>
    ensures ok { OnOk result (into.new.items ≡ into.old.items ++ (line.now ++ 10 ∷ [])) }
    ensures kept { take (length into.old.items) into.new.items ≡ into.old.items }
{
    put(line, into)?;
    put(b"\n", into)?;
    Ok(())
}

/// Appends a line with a number behind a text.
pub(crate) fn put_numbered(text: &[u8], number: u32, into: &mut Vec<u8>) -> Result<(), OutOfMemory>
    ensures ok { OnOk result (into.new.items
        ≡ into.old.items ++ ((text.now ++ decimal number) ++ 10 ∷ [])) }
    ensures kept { take (length into.old.items) into.new.items ≡ into.old.items }
{
    put(text, into)?;
    put_number(number, into)?;
    put(b"\n", into)?;
    Ok(())
}

/// Appends a number.
pub(crate) fn put_number(number: u32, into: &mut Vec<u8>) -> Result<(), OutOfMemory>
    ensures ok { OnOk result (into.new.items ≡ into.old.items ++ decimal number) }
    ensures kept { take (length into.old.items) into.new.items ≡ into.old.items }
{
    let mut buffer = Buffer::new();
    put(buffer.format(number).as_bytes(), into)
}
