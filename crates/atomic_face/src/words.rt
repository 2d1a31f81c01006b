// Values and times, and the numbers that stand for them in a state.
ghost use Rattle.std.specs.Prelude.{◌≡◌, ◌≤◌, ◌^◌, ◌++◌, [], ◌∷◌, pos, unsigned_abs, OnOk, OnErr};
ghost use Rattle.std.specs.Result.{result_ok};
ghost use Rattle.quantity.specs.declared.bounds.TheConstants.{MAX_TIME};
ghost use Rattle.quantity.specs.Arithmetic.{sum_of};
ghost use Rattle.atomic_face.specs.Words.{word_of, value_of_word};
ghost use Rattle.atomic_face.specs.DueWords.{word_or_none, IsReadAs};
ghost use Rattle.atomic_face.specs.Words.{is_due_if, is_time_word, is_value_word};
ghost use Rattle.atomic_face.specs.DueWords.{is_due_word};
ghost use Rattle.atomic_face.specs.Bags.{outputs};
ghost use Rattle.atomic_face.specs.Classes.{is_at};

use crate::PortNo;
use quantity::{OutOfMemory, Overflow, Raw, Time, Value};
use std::alloc::AllocError;

/// The number of `?`.
const UNDEFINED: i64 = 10_000_000_000_000_000;

/// The number of no time, and of no count.
pub const NONE: i64 = -1;

/// The time of so many milliseconds.
pub fn time(ms: u32) -> Time
    requires { ms ≤ MAX_TIME }
    ensures { result ≡ ms }
{
    match Time::new(ms) {
        Some(time) => time,
        None => unreachable!(),
    }
}

/// The value of so many hundred-thousandths.
pub fn number(raw: i64) -> Value
    requires { unsigned_abs raw ≤ 10 ^ 15 }
    ensures { result ≡ Value.Num raw }
{
    match Raw::new(raw) {
        Some(raw) => Value::Num(raw),
        None => unreachable!(),
    }
}

/// The number that stands for a value: of a number its hundred-thousandths, and one of its own for
/// `?`.
pub fn value_word(value: Value) -> i64
    ensures value { result ≡ word_of value }
    ensures bounded { unsigned_abs result ≤ 10 ^ 16 }
{
    match value {
        Value::Undefined => UNDEFINED,
        Value::Num(raw) => raw.get(),
    }
}

/// The value of this number; None where it is the number of none.
pub fn value_of(word: i64) -> Option<Value>
    ensures { IsReadAs is_value_word word_of word result }
{
    if word == UNDEFINED {
        return Some(Value::Undefined);
    }
    match Raw::new(word) {
        Some(raw) => Some(Value::Num(raw)),
        None => None,
    }
}

/// The number that stands for a time, in milliseconds; `NONE` where there is none.
pub fn time_word(time: Option<Time>) -> i64
    ensures { result ≡ word_or_none time }
{
    match time {
        Some(time) => i64::from(time.ms()),
        None => NONE,
    }
}

/// The number that stands for a count; `NONE` where there is none.
pub fn number_word(number: Option<u32>) -> i64
    ensures { result ≡ word_or_none number }
{
    match number {
        Some(number) => i64::from(number),
        None => NONE,
    }
}

/// The time of this number; None where it is the number of none.
pub fn time_of(word: i64) -> Option<Time>
    ensures { IsReadAs is_time_word (λ t. pos t) word result }
{
    Time::new(u32::try_from(word).ok()?)
}

/// The time, or that there is none, of this number; None where it says neither.
pub fn due_of(word: i64) -> Option<Option<Time>>
    ensures { IsReadAs is_due_word word_or_none word result }
{
    if word == NONE {
        return Some(None);
    }
    match time_of(word) {
        Some(time) => Some(Some(time)),
        None => None,
    }
}

/// The time of this number where one is wanted, and else that there is none; None for other
/// numbers.
pub fn due_if(wanted: bool, word: i64) -> Option<Option<Time>>
    ensures { IsReadAs (is_due_if wanted) word_or_none word result }
{
    if !wanted {
        return if word == NONE { Some(None) } else { None };
    }
    match time_of(word) {
        Some(time) => Some(Some(time)),
        None => None,
    }
}

/// Whether this is the time that is due.
pub fn is_at(now: Time, due: Option<Time>) -> bool
    ensures { result ≡ is_at now due }
{
    match due {
        Some(time) => time.ms() == now.ms(),
        None => false,
    }
}

/// The sum of two values, which their numbers stand for. Overflow where it is too large.
// By reference, since the check does not see a value copied that is used again.
pub fn sum(a: &Value, b: &Value) -> Result<Value, Overflow>
    ensures { result_ok result
        ≡ sum_of (value_of_word (word_of a.now)) (value_of_word (word_of b.now)) }
{
    // For the proof: both are bounded, so that neither has the number of `?`.
    let _ = a.known();
    let _ = b.known();
    a.add(*b)
}

/// Appends a value at the port `out`. A refusal leaves `into` as it was.
pub fn give(value: &Value, into: &mut Vec<(PortNo, Value)>) -> Result<(), OutOfMemory>
    ensures ok { OnOk result (into.new.items ≡ into.old.items ++ outputs (value.now ∷ [])) }
    ensures by_word { OnOk result
        (into.new.items ≡ into.old.items ++ outputs (value_of_word (word_of value.now) ∷ [])) }
    ensures err { OnErr result (into.new.items ≡ into.old.items) }
{
    // For the proof: the value is bounded.
    let _ = value.known();
    into.push((PortNo(0), *value)).map_err(AllocError::from)?;
    Ok(())
}

/// Appends these numbers. A refusal leaves `into` as it was.
pub fn put(words: &[i64], into: &mut Vec<i64>) -> Result<(), OutOfMemory>
    ensures ok { OnOk result (into.new.items ≡ into.old.items ++ words.now) }
    ensures err { OnErr result (into.new.items ≡ into.old.items) }
{
    into.extend_from_slice(words)?;
    Ok(())
}
