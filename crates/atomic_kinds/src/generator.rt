// Generators.
ghost use Rattle.std.specs.Prelude.{◌≡◌, ◌≤◌};
ghost use Rattle.quantity.specs.declared.bounds.TheConstants.{MAX_DELAY};
ghost use Rattle.atomic_face.specs.Words.{is_zero_word};
ghost use Rattle.atomic_face.specs.DueWords.{word_or_none, IsReadAs};
ghost use Rattle.atomic_face.specs.Generator.{is_left, is_none_left, one_less};
ghost use Rattle.atomic_face.specs.Settings.{first_line_off};

use crate::parameters::{
    Form, count_setting, line_off, period_setting, time_setting, value_setting,
};
use atomic_face::params::least;
use atomic_face::words::{
    NONE, due_if, give, is_at, number, number_word, put, sum, time, time_word, value_of, value_word,
};
use atomic_face::{
    AdvanceRefusal, AtomicModel, Class, Params, PortNo, RestoreRefusal, SettleRefusal,
};
use quantity::{OutOfMemory, Overflow, Time, Value};
use std::alloc::Global;

/// Gives a value again and again: first at the start, and then each time a period later, raised by
/// a step. A count bounds how often.
#[derive(Drop)]
pub struct GeneratorModel {
    start: Time,
    period: Time,
    value: Value,
    step: Value,
    count: Option<u32>,
    next: Option<Time>,
    current: Value,
    left: Option<u32>,
    ghost short: { period ≤ MAX_DELAY },
}

impl AtomicModel for GeneratorModel {
    ghost use Rattle.atomic_kinds.specs.Generator.{held_generator};

    ghost held = { held_generator };

    fn class(&self) -> Class {
        Class::Generator
    }

    fn settle(&mut self, _alloc: Global, params: &Params) -> Result<(), SettleRefusal> {
        if let Some(line) = generator_line_off(params) {
            return Err(SettleRefusal::BadParameter(line));
        }
        self.start = time_setting(params, b"start", time(0));
        self.period = period_setting(params, b"period", time(1000));
        self.value = value_setting(params, b"value", number(100_000));
        self.step = value_setting(params, b"step", number(0));
        self.count = count_setting(params, b"count");
        self.next = Some(self.start);
        self.current = self.value;
        self.left = self.count;
        Ok(())
    }

    fn next(&self) -> Option<Time> {
        self.next
    }

    fn output(&self, into: &mut Vec<(PortNo, Value)>) -> Result<(), OutOfMemory> {
        give(&self.current, into)
    }

    fn advance(&mut self, now: Time, _bag: &[(PortNo, Value)]) -> Result<(), AdvanceRefusal> {
        if !is_at(now, self.next) {
            return Ok(());
        }
        match self.go_on(now) {
            Ok(()) => Ok(()),
            Err(_) => Err(AdvanceRefusal::Overflow),
        }
    }

    fn save(&self, into: &mut Vec<i64>) -> Result<(), OutOfMemory> {
        put(
            &[
                time_word(self.next),
                value_word(self.current),
                number_word(self.left),
            ],
            into,
        )
    }

    fn restore(&mut self, _alloc: Global, words: &[i64]) -> Result<(), RestoreRefusal> {
        let [next, current, left] = words else {
            return Err(RestoreRefusal::BadState);
        };
        self.take_state(*next, *current, *left)
    }
}

impl GeneratorModel {
    ghost use Rattle.std.specs.Prelude.{[], ◌∷◌};
    ghost use Rattle.atomic_face.specs.declared.class.Class.TheVariants.{Generator};
    ghost use Rattle.atomic_face.specs.BoxCalls.{box_at_start, RestoreGives};
    ghost use Rattle.atomic_face.specs.Settings.{settings_of};
    ghost use Rattle.atomic_kinds.specs.Generator.{held_generator, InternalGives};

    /// A generator as no parameters settle it: from 0 ms on, 1 each second, without end.
    pub fn new() -> GeneratorModel
        ensures { held_generator result ≡ box_at_start Generator (settings_of Generator []) }
    {
        GeneratorModel {
            start: time(0),
            period: time(1000),
            value: number(100_000),
            step: number(0),
            count: None,
            next: Some(time(0)),
            current: number(100_000),
            left: None,
        }
    }

    // The value was given: it is raised, and due again a period later, unless none is left to give.
    fn go_on(&mut self, now: Time) -> Result<(), Overflow>
        requires { now ≤ MAX_DELAY }
        ensures { InternalGives now self.old self.new result }
    {
        let left = one_less(self.left);
        if is_none_left(left) {
            self.next = None;
            self.left = left;
            return Ok(());
        }
        let raised = sum(&self.current, &self.step)?;
        self.current = raised;
        self.next = Some(now.after(self.period));
        self.left = left;
        Ok(())
    }

    // The state of these three numbers, if they are one.
    fn take_state(&mut self, next: i64, current: i64, left: i64) -> Result<(), RestoreRefusal>
        ensures { RestoreGives (next ∷ current ∷ left ∷ []) (held_generator self.old)
            (held_generator self.new) result }
    {
        let Some(left) = left_of(self.count, left) else {
            return Err(RestoreRefusal::BadState);
        };
        let Some(current) = value_of(current) else {
            return Err(RestoreRefusal::BadState);
        };
        let Some(next) = due_if(!is_none_left(left), next) else {
            return Err(RestoreRefusal::BadState);
        };
        self.next = next;
        self.current = current;
        self.left = left;
        Ok(())
    }
}

fn one_less(left: Option<u32>) -> Option<u32>
    ensures { word_or_none result ≡ one_less (word_or_none left) }
{
    match left {
        Some(left) => Some(left.saturating_sub(1)),
        None => None,
    }
}

fn is_none_left(left: Option<u32>) -> bool
    ensures zero { result ≡ is_zero_word (word_or_none left) }
    ensures none_left { result ≡ is_none_left (word_or_none left) }
{
    matches!(left, Some(0))
}

// How many are left to give, where so many are counted: at most these, and none are counted where
// there is no count.
fn left_of(count: Option<u32>, word: i64) -> Option<Option<u32>>
    ensures { IsReadAs (is_left (word_or_none count)) word_or_none word result }
{
    let Some(count) = count else {
        return if word == NONE { Some(None) } else { None };
    };
    match u32::try_from(word) {
        Ok(left) if left <= count => Some(Some(left)),
        _ => None,
    }
}

fn generator_line_off(params: &Params) -> Option<u32>
    ensures { result ≡ first_line_off Class.Generator params.now.entries.items }
{
    let start = line_off(params, b"start", Form::Time);
    let period = line_off(params, b"period", Form::Period);
    let value = line_off(params, b"value", Form::Value);
    let step = line_off(params, b"step", Form::Value);
    let count = line_off(params, b"count", Form::Count);
    let last = least(value, least(step, count));
    least(start, least(period, last))
}
