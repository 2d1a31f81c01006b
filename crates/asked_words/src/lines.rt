// Lines that name a file or a stream.
ghost use Rattle.std.specs.Prelude.{◌≡◌, ◌++◌, IfOk};
ghost use Rattle.text_forms.specs.Lines.{line_with_end};

use quantity::OutOfMemory;
use std::alloc::Global;

/// What is said of a file or a stream, on a line of its own.
pub(crate) fn named_line(alloc: Global, what: &[u8], name: &[u8]) -> Result<Vec<u8>, OutOfMemory>
    ensures { IfOk result (λ line. line.items ≡ line_with_end (what.now ++ name.now)) }
{
    let mut line = what.to_vec(alloc)?;
    line.extend_from_slice(name)?;
    line.extend_from_slice(b"\n")?;
    Ok(line)
}
