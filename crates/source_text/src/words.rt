// The words of a text: what stands between blanks, which are spaces and tabs.
ghost use Rattle.std.specs.Prelude.{◌≡◌, ◌<◌, [], ◌∷◌, length, IfOk, IfSome, MatchOption};
ghost use Rattle.std.specs.List.{position, position_or_len};
ghost use Rattle.quantity.specs.Bytes.{is_blank, words};
ghost use Rattle.source_text.specs.Shown.{texts};

use crate::line::{is_blank, without_blanks_before};
use quantity::OutOfMemory;
use std::alloc::{AllocError, Global};

/// The first word, which is not empty, and what stands behind it; None exactly where there is no
/// word.
pub fn next_word(text: &[u8]) -> Option<(&[u8], &[u8])>
    ensures words { MatchOption result (words text.now ≡ [])
        (λ cut. words text.now ≡ cut.0.now ∷ words cut.1.now) }
    ensures filled { IfSome result (λ cut. 0 < length cut.0.now) }
    ensures shorter { IfSome result (λ cut. length cut.1.now < length text.now) }
{
    let filled = without_blanks_before(text);
    if filled.is_empty() {
        return None;
    }
    Some(filled.split_at(blank_or_end(filled)))
}

/// The place of the first blank, or the length where there is none.
fn blank_or_end(text: &[u8]) -> usize
    ensures { result ≡ position_or_len is_blank text.now }
{
    first_blank(text).unwrap_or(text.len())
}

fn first_blank(text: &[u8]) -> Option<usize>
    ensures { result ≡ position is_blank text.now }
{
    text.iter().position(|byte| is_blank(*byte))
}

/// All words in order.
pub fn words(alloc: Global, text: &[u8]) -> Result<Vec<&[u8]>, OutOfMemory>
    ensures { IfOk result (λ found. texts found.items ≡ words text.now) }
{
    let mut found = Vec::new(alloc);
    let mut rest = text;
    while let Some((word, behind)) = next_word(rest) {
        found.push(word).map_err(AllocError::from)?;
        rest = behind;
    }
    Ok(found)
}
