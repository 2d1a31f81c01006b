// The texts of two values, since most cells of a frame have one of a few. A refusal may leave more
// behind what was there.
ghost use Rattle.std.specs.Prelude.{◌≡◌, ◌≤◌, ◌++◌, ℕ, None, length, take, IfSome, OnOk};
ghost use Rattle.quantity.specs.ValueTexts.{value_text};
ghost use Rattle.frame_draw.specs.Knowing.{IsKnown, AreKnown};

use crate::kept::Kept;
use crate::plane::Plane;
use quantity::{OutOfMemory, Value, put};

/// A value with its text.
#[derive(Drop)]
pub(crate) struct Known {
    value: Value,
    text: Kept,
}

/// The first two values of a frame with their texts, as far as they were met.
#[derive(Drop)]
pub(crate) struct KnownTexts {
    first: Option<Known>,
    second: Option<Known>,
}

impl KnownTexts {
    /// No value was met.
    pub(crate) fn new() -> KnownTexts
        ensures first { result.first ≡ None }
        ensures second { result.second ≡ None }
    {
        KnownTexts {
            first: None,
            second: None,
        }
    }

    /// Appends the text of a value.
    #[inline(always)]
    pub(crate) fn put_value(
        &mut self,
        value: &Value,
        plane: &Plane,
        into: &mut Vec<u8>,
    ) -> Result<(), OutOfMemory>
        requires decimals { plane.now.decimals ≤ 5 }
        requires width { plane.now.width ≤ 20 }
        requires known { AreKnown plane.now.decimals plane.now.width self.old }
        ensures known { AreKnown plane.now.decimals plane.now.width self.new }
        ensures ok { OnOk result (into.new.items ≡
            into.old.items ++ value_text plane.now.decimals plane.now.width value.now) }
        ensures kept { take (length into.old.items) into.new.items ≡ into.old.items }
    {
        match self.text_of(value) {
            Some(text) => put_short(text, into),
            None => self.put_new(value, plane, into),
        }
    }

    /// The text of a value, where it is known.
    #[inline(always)]
    fn text_of(&self, value: &Value) -> Option<&[u8]>
        ensures { (d w : ℕ) → AreKnown d w self.now
            → IfSome result (λ text. text.now ≡ value_text d w value.now) }
    {
        match text_in(&self.first, value) {
            Some(text) => Some(text),
            None => text_in(&self.second, value),
        }
    }

    /// Appends the text of a value that isn't known, and knows it from now on, where there is room.
    #[cold]
    #[inline(never)]
    fn put_new(
        &mut self,
        value: &Value,
        plane: &Plane,
        into: &mut Vec<u8>,
    ) -> Result<(), OutOfMemory>
        requires decimals { plane.now.decimals ≤ 5 }
        requires width { plane.now.width ≤ 20 }
        requires known { AreKnown plane.now.decimals plane.now.width self.old }
        ensures known { AreKnown plane.now.decimals plane.now.width self.new }
        ensures ok { OnOk result (into.new.items ≡
            into.old.items ++ value_text plane.now.decimals plane.now.width value.now) }
        ensures kept { take (length into.old.items) into.new.items ≡ into.old.items }
    {
        let before = into.len();
        value.text(plane.decimals, plane.width, into)?;
        self.learn(value, &into[before..]);
        Ok(())
    }

    /// Knows the text of a value, where there is room.
    fn learn(&mut self, value: &Value, text: &[u8])
        ensures { (d w : ℕ) → AreKnown d w self.old → text.now ≡ value_text d w value.now
            → AreKnown d w self.new }
    {
        if self.first.is_none() {
            self.first = with_text(value, text);
        } else if self.second.is_none() {
            self.second = with_text(value, text);
        }
    }
}

/// Appends a text, most often of two bytes.
#[inline(always)]
fn put_short(text: &[u8], into: &mut Vec<u8>) -> Result<(), OutOfMemory>
    ensures ok { OnOk result (into.new.items ≡ into.old.items ++ text.now) }
    ensures kept { take (length into.old.items) into.new.items ≡ into.old.items }
{
    match text {
        [first, second] => put(&[*first, *second], into),
        _ => put(text, into),
    }
}

/// A value with its text, where that is short.
fn with_text(value: &Value, text: &[u8]) -> Option<Known>
    ensures { (d w : ℕ) → text.now ≡ value_text d w value.now → IsKnown d w result }
{
    let mut kept = Kept::new();
    if kept.keep(text) {
        Some(Known {
            value: *value,
            text: kept,
        })
    } else {
        None
    }
}

/// The text of a value, where it is the known one.
#[inline(always)]
fn text_in<'a>(known: &'a Option<Known>, value: &Value) -> Option<&'a [u8]>
    ensures { (d w : ℕ) → IsKnown d w known.now
        → IfSome result (λ text. text.now ≡ value_text d w value.now) }
{
    let Some(known) = known else {
        return None;
    };
    if known.value.is_same(value) {
        Some(known.text.as_bytes())
    } else {
        None
    }
}
