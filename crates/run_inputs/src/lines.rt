// Lines that are complained.
ghost use Rattle.std.specs.Prelude.{◌≡◌, IfOk};
ghost use Rattle.text_forms.specs.Lines.{line_with_end};
ghost use Rattle.answer_model.specs.Answer.{refused_text};

use quantity::OutOfMemory;
use std::alloc::Global;

/// What is refused, at which line and why.
pub(crate) fn refused_line(
    alloc: Global,
    what: &[u8],
    number: u32,
    why: &[u8],
) -> Result<Vec<u8>, OutOfMemory>
    ensures { IfOk result
        (λ line. line.items ≡ line_with_end (refused_text what.now number why.now)) }
{
    let number = number.to_string(alloc)?;
    let parts = [
        what,
        b" refused: line ".as_slice(),
        number.as_bytes(),
        b": ".as_slice(),
        why,
        b"\n".as_slice(),
    ];
    let line = parts.concat(alloc)?;
    Ok(line)
}
