// Texts that grow at their end.
ghost use Rattle.std.specs.Prelude.{◌≡◌, ◌++◌, length, take, OnOk};

use crate::memory::OutOfMemory;

/// Appends a text. A refusal may leave a part of it behind what was there.
#[inline(always)]
pub fn put(text: &[u8], into: &mut Vec<u8>) -> Result<(), OutOfMemory>
    ensures ok { OnOk result (into.new.items ≡ into.old.items ++ text.now) }
    ensures kept { take (length into.old.items) into.new.items ≡ into.old.items }
{
    into.extend_from_slice(text)?;
    Ok(())
}
