// Pieces of lines. A refusal may leave more behind what was there.
ghost use Rattle.std.specs.Prelude.{◌≡◌, ◌<◌, ◌*◌, ◌++◌, codes, length, pos, take, IfSome, OnOk};
ghost use Rattle.quantity.specs.declared.value.Value.TheVariants.{Num};
ghost use Rattle.quantity.specs.ValueTexts.{text5};
ghost use Rattle.model_leaves.specs.PlaneTexts.{leaf_text};
ghost use Rattle.model_leaves.specs.Leaves.{Appends, IsLeafOf};
ghost use Rattle.text_forms.specs.Begun.{line_front};

use crate::Letter;
use model_leaves::Model;
use quantity::{OutOfMemory, Time, Value, put};

/// Appends letter and time of a line, and a stroke.
pub(crate) fn put_begun(letter: Letter, time: Time, into: &mut Vec<u8>) -> Result<(), OutOfMemory>
    ensures ok { OnOk result (into.new.items ≡ into.old.items ++ line_front letter time) }
    ensures kept { take (length into.old.items) into.new.items ≡ into.old.items }
{
    put(&[letter.byte(), b' ', b'/', b' '], into)?;
    time.text(into)?;
    put(b" / ", into)
}

/// Appends how a leaf is called.
pub(crate) fn put_leaf(leaf: u32, model: &Model, into: &mut Vec<u8>) -> Result<(), OutOfMemory>
    requires { IsLeafOf model.now leaf }
    ensures ok { OnOk result (Appends model.now leaf leaf_text into.old.items into.new.items) }
    ensures kept { take (length into.old.items) into.new.items ≡ into.old.items }
{
    model.leaf_text(leaf, into)
}

/// Appends the value at the end of a line.
#[inline(always)]
pub(crate) fn put_value(value: Value, into: &mut Vec<u8>) -> Result<(), OutOfMemory>
    ensures ok { OnOk result (into.new.items ≡ into.old.items ++ (text5 value ++ codes "\n")) }
    ensures kept { take (length into.old.items) into.new.items ≡ into.old.items }
{
    match one_digit(&value) {
        Some(digit) => {
            let text = [b'0' + digit, b'.', b'0', b'0', b'0', b'0', b'0', b'\n'];
            put(&text, into)
        }
        None => put_long_value(value, into),
    }
}

/// Appends the value at the end of a line, which may be any.
pub(crate) fn put_long_value(value: Value, into: &mut Vec<u8>) -> Result<(), OutOfMemory>
    ensures ok { OnOk result (into.new.items ≡ into.old.items ++ (text5 value ++ codes "\n")) }
    ensures kept { take (length into.old.items) into.new.items ≡ into.old.items }
{
    value.text5(into)?;
    put(b"\n", into)
}

/// The digit of a whole number below 10.
#[inline(always)]
pub(crate) fn one_digit(value: &Value) -> Option<u8>
    ensures { IfSome result (λ digit. (digit < 10) × (value.now ≡ Num (pos (digit * 100000)))) }
{
    let Value::Num(raw) = value else {
        return None;
    };
    let raw = raw.get();
    if 0 <= raw && raw < 1_000_000 && raw % 100_000 == 0 {
        Some((raw / 100_000) as u8)
    } else {
        None
    }
}
