// The parts of a log line.
ghost use Rattle.std.specs.Prelude.{◌≡◌, IfSome};
ghost use Rattle.std.specs.Option.{option_map, option_copied};
ghost use Rattle.drawlog_top.specs.Fronts.{stroke};
ghost use Rattle.drawlog_top.specs.PartsRead.{parts_of};
ghost use Rattle.drawlog_top.specs.Strict as strict;

use quantity::digits::cut_at;

/// The five parts of a line, between its strokes.
#[derive(Clone, Copy)]
pub(crate) struct Parts<'a> {
    pub(crate) letter: &'a [u8],
    pub(crate) time: &'a [u8],
    pub(crate) leaf: &'a [u8],
    pub(crate) first: &'a [u8],
    pub(crate) second: &'a [u8],
}

/// The parts of a line.
pub(crate) fn cut_parts(text: &[u8]) -> Option<Parts<'_>>
    ensures { option_map parts_of result ≡ strict.cut_parts text.now }
{
    let (letter, rest) = cut_at(b' ', text);
    let behind_letter = behind_stroke(rest)?;
    let (time, rest) = cut_at(b' ', behind_letter);
    let behind_time = behind_stroke(rest)?;
    let (leaf, rest) = cut_at(b' ', behind_time);
    let behind_leaf = behind_stroke(rest)?;
    let (first, rest) = cut_at(b' ', behind_leaf);
    let second = behind_stroke(rest)?;
    Some(Parts {
        letter,
        time,
        leaf,
        first,
        second,
    })
}

/// The word in front of a text, and what follows the stroke behind it.
pub(crate) fn word_in_front(text: &[u8]) -> Option<(&[u8], &[u8])>
    ensures { IfSome result (λ t. text.now ≡ stroke t.0.now t.1.now) }
{
    let (word, rest) = cut_at(b' ', text);
    let behind = behind_stroke(rest)?;
    Some((word, behind))
}

/// What follows a stroke and a blank.
fn behind_stroke(text: &[u8]) -> Option<&[u8]>
    ensures { option_copied result ≡ strict.behind_stroke text.now }
{
    match text {
        [b'/', b' ', rest @ ..] => Some(rest),
        _ => None,
    }
}
