// The words of a hold or a take.
ghost use Rattle.std.specs.Prelude.{◌≡◌, ◌≢◌, [], ◌∷◌, length, MatchOption, codes, pos};
ghost use Rattle.std.specs.Option.{option_map};
ghost use Rattle.quantity.specs.Bytes.{words};
ghost use Rattle.atomic_face.specs.TableSettings.{value_or};
ghost use Rattle.state_tables.specs.Settings.{shown_word, wanted_word};

use crate::settings::{Shown, Wanted};
use quantity::Value;
use source_text::words::next_word;

/// The words of a text that has four.
pub(crate) fn four_words(text: &[u8]) -> Option<(&[u8], &[u8], &[u8], &[u8])>
    ensures { MatchOption result (length (words text.now) ≢ 4)
        (λ w. words text.now ≡ w.0.now ∷ w.1.now ∷ w.2.now ∷ w.3.now ∷ []) }
{
    let (first, behind) = next_word(text)?;
    let (second, behind) = next_word(behind)?;
    let (third, behind) = next_word(behind)?;
    let (fourth, behind) = next_word(behind)?;
    if next_word(behind).is_some() {
        return None;
    }
    Some((first, second, third, fourth))
}

/// What a state gives: a value, or `last`.
pub(crate) fn shown_of(text: &[u8]) -> Option<Shown>
    ensures { option_map shown_word result ≡ value_or (codes "last") text.now }
{
    if text == b"last".as_slice() {
        return Some(Shown::Last);
    }
    let value = Value::parse(text)?;
    Some(Shown::Value(value))
}

/// What a state takes: a value, or `any`.
pub(crate) fn wanted_of(text: &[u8]) -> Option<Wanted>
    ensures { option_map wanted_word result ≡ value_or (codes "any") text.now }
{
    if text == b"any".as_slice() {
        return Some(Wanted::Any);
    }
    let value = Value::parse(text)?;
    Some(Wanted::Value(value))
}
