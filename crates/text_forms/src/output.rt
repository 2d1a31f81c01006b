// The lines of values at outputs of top. A refusal may leave more behind what was there.
ghost use Rattle.std.specs.Prelude.{◌≡◌, ◌++◌, length, take, OnOk};
ghost use Rattle.model_leaves.specs.LeafTexts.{name_at};
ghost use Rattle.text_forms.specs.Lines.{out_line};
ghost use Rattle.text_forms.specs.RecordTexts.{out_texts};

use crate::records::OutRecord;
use quantity::{Name, OutOfMemory, put};

/// Appends the lines of values at outputs with these names.
pub(crate) fn put_outputs(
    records: &[OutRecord],
    names: &[Name],
    into: &mut Vec<u8>,
) -> Result<(), OutOfMemory>
    ensures ok { OnOk result (into.new.items ≡ into.old.items ++ out_texts names.now records.now) }
    ensures kept { take (length into.old.items) into.new.items ≡ into.old.items }
{
    for output in records {
        put_output(output, names, into)?;
    }
    Ok(())
}

fn put_output(output: &OutRecord, names: &[Name], into: &mut Vec<u8>) -> Result<(), OutOfMemory>
    ensures ok { OnOk result (into.new.items
        ≡ into.old.items ++ out_line names.now output.now.time
        (record { port = output.now.port; value = output.now.value })) }
    ensures kept { take (length into.old.items) into.new.items ≡ into.old.items }
{
    output.time.text(into)?;
    put(b" ", into)?;
    put(name_at(names, output.port), into)?;
    put(b" ", into)?;
    output.value.get().text5(into)?;
    put(b"\n", into)
}

/// The name of this number; no bytes where there is none.
fn name_at(names: &[Name], number: u16) -> &[u8]
    ensures { result.now ≡ name_at names.now number }
{
    match names.get(number as usize) {
        Some(name) => name.as_bytes(),
        None => b"",
    }
}
