// Lines of the usual form, read from left to right in one go: times below 100 hours, and no cells
// of three dimensions. All others are left to those who read part by part.
ghost use Rattle.std.specs.Prelude.{◌≡◌, true, IfSome};
ghost use Rattle.quantity.specs.TimeBounds.{IsTime};
ghost use Rattle.text_forms.specs.declared.letter.Letter.TheVariants.{S};
ghost use Rattle.text_forms.specs.LogLine.{is_leaf};
ghost use Rattle.drawlog_top.specs.Fronts.{front_with_rest, IsLineText};
ghost use Rattle.drawlog_top.specs.LeafRead.{named_leaf, HasWholePlace};
ghost use Rattle.drawlog_top.specs.LineRead.{leaf_in, line_of};

use crate::front::{leaf_in_front, letter_in_front, port_in_front, state_in_front, time_in_front};
use crate::leaf_name::LeafName;
use crate::log_line::{LogLine, given, moved, read_next};
use crate::usual::read_value;
use quantity::Time;
use text_forms::{Letter, Tells};

/// The line that a text is, where letter, time and leaf are of the usual form.
#[inline(always)]
pub(crate) fn usual_line(text: &[u8]) -> Option<LogLine<'_>>
    ensures line { IfSome result (λ line. IsLineText text.now (line_of line)) }
    ensures leaf { IfSome result (λ line. HasWholePlace (leaf_in line)) }
{
    let Some((letter, behind_letter)) = letter_in_front(text) else {
        return None;
    };
    let Some((time, behind_time)) = time_in_front(behind_letter) else {
        return None;
    };
    let Some((leaf, rest)) = leaf_in_front(behind_time) else {
        return None;
    };
    match letter.tells() {
        Tells::Given { .. } => usual_given(letter, time, &leaf, rest),
        Tells::Moved => usual_moved(time, &leaf, rest),
    }
}

/// The line of a letter that values have, of what stands behind its leaf.
#[inline(always)]
fn usual_given<'a>(
    letter: Letter,
    time: Time,
    leaf: &LeafName<'a>,
    text: &'a [u8],
) -> Option<LogLine<'a>>
    requires time { IsTime time }
    requires leaf { is_leaf (named_leaf leaf.now) ≡ true }
    requires whole { HasWholePlace leaf.now }
    ensures line { IfSome result (λ line.
        IsLineText (front_with_rest letter time (named_leaf leaf.now) text.now) (line_of line)) }
    ensures leaf { IfSome result (λ line. HasWholePlace (leaf_in line)) }
{
    let (port, behind_port) = port_in_front(text)?;
    let value = read_value(behind_port)?;
    given(letter, time, leaf, port, value)
}

/// The line of a leaf that moved, of what stands behind the leaf.
#[inline(always)]
fn usual_moved<'a>(time: Time, leaf: &LeafName<'a>, text: &[u8]) -> Option<LogLine<'a>>
    requires time { IsTime time }
    requires leaf { is_leaf (named_leaf leaf.now) ≡ true }
    requires whole { HasWholePlace leaf.now }
    ensures line { IfSome result (λ line.
        IsLineText (front_with_rest S time (named_leaf leaf.now) text.now) (line_of line)) }
    ensures leaf { IfSome result (λ line. HasWholePlace (leaf_in line)) }
{
    let Some((state, behind_state)) = state_in_front(text) else {
        return None;
    };
    let next = read_next(behind_state)?;
    moved(time, leaf, state, next)
}
