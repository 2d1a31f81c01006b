// The parts of a line: a name between brackets, letters and braces.
ghost use Rattle.std.specs.Prelude.{◌≡◌, ◌+◌, ◌<◌, ◌≤◌, ◌^◌, length, IfOk};
ghost use Rattle.std.specs.List.{list_all};
ghost use Rattle.std.specs.Option.{option_map, option_copied};
ghost use Rattle.quantity.specs.ByteNames.{closing_brace, closing_bracket};
ghost use Rattle.quantity.specs.ByteNames.{opening_brace, opening_bracket};
ghost use Rattle.quantity.specs.Bytes.{is_byte, begins_with, inside, open_after};
ghost use Rattle.source_text.specs.Lines.{in_lower_case};
ghost use Rattle.ma_lines.specs.Entries.{braces_after, keeps_letters};
ghost use Rattle.ma_lines.specs.Sections.{is_allowed, has_brackets, name_in};

use source_text::line::trimmed;
use std::alloc::{AllocError, Global};

/// Whether each byte may stand outside comments.
pub(crate) fn all_are_allowed(text: &[u8]) -> bool
    ensures { result ≡ list_all is_allowed text.now }
{
    text.iter().all(|c| is_allowed(*c))
}

fn is_allowed(byte: u8) -> bool
    ensures { result ≡ is_allowed byte }
{
    byte == b'\t' || (b' ' <= byte && byte <= b'~')
}

/// Whether a section begins in this line.
pub(crate) fn is_heading(text: &[u8]) -> bool
    ensures { result ≡ begins_with opening_bracket text.now }
{
    match text {
        [b'[', ..] => true,
        _ => false,
    }
}

/// The name of the section that a line begins: none where no name stands between brackets.
pub(crate) fn section_name(alloc: Global, text: &[u8]) -> Result<Option<Vec<u8>>, AllocError>
    ensures { IfOk result (λ name. option_map (λ v. v.items) name
        ≡ name_in (inside opening_bracket closing_bracket text.now)) }
{
    let Some(inner) = in_brackets(text) else {
        return Ok(None);
    };
    let name = trimmed(inner);
    if has_brackets(inner) || name.is_empty() {
        return Ok(None);
    }
    Ok(Some(folded(alloc, name)?))
}

fn in_brackets(text: &[u8]) -> Option<&[u8]>
    ensures { option_copied result ≡ inside opening_bracket closing_bracket text.now }
{
    let (first, rest) = text.split_first()?;
    let (last, inner) = rest.split_last()?;
    if *first == b'[' && *last == b']' {
        Some(inner)
    } else {
        None
    }
}

fn has_brackets(text: &[u8]) -> bool
    ensures { result ≡ has_brackets text.now }
{
    text.iter().any(|c| *c == b'[' || *c == b']')
}

/// Whether the values of this key keep their letters.
pub(crate) fn keeps_letters(key: &[u8]) -> bool
    ensures { result ≡ keeps_letters key.now }
{
    key == b"initialcellsvalue".as_slice() || key == b"initialmapvalue".as_slice()
}

/// The text in lower-case letters.
pub(crate) fn folded(alloc: Global, text: &[u8]) -> Result<Vec<u8>, AllocError>
    ensures { IfOk result (λ letters. letters.items ≡ in_lower_case text.now) }
{
    let mut letters = Vec::from_slice(alloc, text)?;
    letters.as_mut_slice().make_ascii_lowercase();
    Ok(letters)
}

/// The braces that are open after a text, where so many are open before it.
pub(crate) fn braces_after(before: u64, text: &[u8]) -> u64
    requires { before + length text.now < 2 ^ 64 }
    ensures value { result ≡ braces_after before text.now }
    ensures bound { result ≤ before + length text.now }
{
    let mut braces = before;
    for byte in text {
        braces = braces_behind(braces, *byte);
    }
    braces
}

fn braces_behind(before: u64, byte: u8) -> u64
    requires { before + 1 < 2 ^ 64 }
    ensures value { result
        ≡ open_after (is_byte opening_brace) (is_byte closing_brace) before byte }
    ensures bound { result ≤ before + 1 }
{
    match byte {
        b'{' => before + 1,
        b'}' => before.saturating_sub(1),
        _ => before,
    }
}
