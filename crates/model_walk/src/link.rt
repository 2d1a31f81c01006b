// The ends of a link.
ghost use Rattle.std.specs.Prelude.{◌≡◌, ◌≢◌, ◌∷◌, [], ◌++◌, length, IfOk, OnOk, MatchOption};
ghost use Rattle.std.specs.List.{flat_map, list_any, slice_split};
ghost use Rattle.std.specs.Option.{is_some};
ghost use Rattle.quantity.specs.ByteNames.{closing_parenthesis, opening_parenthesis};
ghost use Rattle.quantity.specs.Bytes.{is_blank, is_byte, words};
ghost use Rattle.source_text.specs.Tuples.{tuple};
ghost use Rattle.model_text.specs.Forms as F;
ghost use Rattle.model_walk.specs.TupleParts.{is_tuple};

use quantity::OutOfMemory;
use quantity::digits::cut_at;
use source_text::cut::part_before;
use source_text::tuples::named_tuple;
use source_text::words::next_word;
use std::alloc::{AllocError, Global};

/// The text of a link, with its tuples but without their blanks: its words are the ends.
pub fn link_text(alloc: Global, text: &[u8]) -> Result<Vec<u8>, OutOfMemory>
    ensures { IfOk result (λ whole. words whole.items ≡ F.ends_of text.now) }
{
    let mut whole = Vec::new(alloc);
    match part_before(b'(', text) {
        None => {
            whole.extend_from_slice(text)?;
        }
        Some((first, behind)) => {
            whole.extend_from_slice(first)?;
            add_tuples(alloc, behind, &mut whole)?;
        }
    }
    Ok(whole)
}

/// The first two words of a text that has no third; None exactly where there are more or fewer.
pub fn two_ends(text: &[u8]) -> Option<(&[u8], &[u8])>
    ensures { MatchOption result (length (words text.now) ≢ 2)
        (λ ends. words text.now ≡ ends.0.now ∷ ends.1.now ∷ []) }
{
    let (from, behind) = next_word(text)?;
    let (to, rest) = next_word(behind)?;
    match next_word(rest) {
        None => Some((from, to)),
        Some(_) => None,
    }
}

/// Appends what stands behind the first opening parenthesis, with that parenthesis.
fn add_tuples(alloc: Global, text: &[u8], whole: &mut Vec<u8>) -> Result<(), OutOfMemory>
    ensures { OnOk result (whole.new.items
        ≡ whole.old.items ++ flat_map (λ q. opening_parenthesis ∷ F.with_whole_tuple q)
        (slice_split (is_byte opening_parenthesis) text.now)) }
{
    let mut rest = text;
    while let Some((part, behind)) = part_before(b'(', rest) {
        add_tuple(alloc, part, whole)?;
        rest = behind;
    }
    add_tuple(alloc, rest, whole)
}

/// Appends an opening parenthesis and what stands behind it, where a tuple loses its blanks.
fn add_tuple(alloc: Global, part: &[u8], whole: &mut Vec<u8>) -> Result<(), OutOfMemory>
    ensures { OnOk result (whole.new.items
        ≡ whole.old.items ++ opening_parenthesis ∷ F.with_whole_tuple part.now) }
{
    whole.push(b'(').map_err(AllocError::from)?;
    if !ends_tuple(alloc, part)? {
        whole.extend_from_slice(part)?;
        return Ok(());
    }
    let (inner, behind) = cut_at(b')', part);
    whole.extend_from_slice(&without_blanks(alloc, inner)?)?;
    whole.push(b')').map_err(AllocError::from)?;
    whole.extend_from_slice(behind)?;
    Ok(())
}

/// Whether a tuple ends at the first closing parenthesis of what stands behind its opening one.
fn ends_tuple(alloc: Global, part: &[u8]) -> Result<bool, OutOfMemory>
    ensures { IfOk result (λ ends. ends ≡ is_tuple part.now) }
{
    if !has_closing(part) {
        return Ok(false);
    }
    let (inner, _behind) = cut_at(b')', part);
    let opened = opened(alloc, inner)?;
    Ok(named_tuple(&opened).is_some())
}

/// The text with an opening parenthesis before it.
fn opened(alloc: Global, text: &[u8]) -> Result<Vec<u8>, OutOfMemory>
    ensures { IfOk result (λ opened. opened.items ≡ opening_parenthesis ∷ text.now) }
{
    let mut opened = Vec::new(alloc);
    opened.push(b'(').map_err(AllocError::from)?;
    opened.extend_from_slice(text)?;
    Ok(opened)
}

fn has_closing(text: &[u8]) -> bool
    ensures { result ≡ list_any (is_byte closing_parenthesis) text.now }
{
    text.iter().any(|byte| b')' == *byte)
}

fn without_blanks(alloc: Global, text: &[u8]) -> Result<Vec<u8>, AllocError>
    ensures { IfOk result (λ kept. kept.items ≡ F.without_blanks text.now) }
{
    text.iter()
        .copied()
        .filter(|byte| !is_blank(*byte))
        .collect(alloc)
}

fn is_blank(byte: u8) -> bool
    ensures { result ≡ is_blank byte }
{
    byte == b' ' || byte == b'\t'
}
