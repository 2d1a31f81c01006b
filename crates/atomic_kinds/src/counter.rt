// Counters.
ghost use Rattle.std.specs.Prelude.{◌≡◌, ◌≤◌};
ghost use Rattle.quantity.specs.declared.bounds.TheConstants.{MAX_DELAY};
ghost use Rattle.atomic_face.specs.Settings.{first_line_off};

use crate::parameters::{Form, line_off, time_setting, value_setting};
use atomic_face::params::least;
use atomic_face::words::{
    due_of, give, is_at, number, put, sum, time, time_word, value_of, value_word,
};
use atomic_face::{
    AdvanceRefusal, AtomicModel, Class, Params, PortNo, RestoreRefusal, SettleRefusal,
};
use quantity::{OutOfMemory, Overflow, Time, Value};
use std::alloc::Global;

/// Counts its inputs: each value at `in` adds the step to the total, and each at `reset` sets it
/// back to the start. It gives the total a delay after an input.
#[derive(Drop)]
pub struct CounterModel {
    delay: Time,
    start: Value,
    step: Value,
    total: Value,
    due: Option<Time>,
    ghost short: { delay ≤ MAX_DELAY },
}

impl AtomicModel for CounterModel {
    ghost use Rattle.atomic_kinds.specs.Counter.{held_counter};

    ghost held = { held_counter };

    fn class(&self) -> Class {
        Class::Counter
    }

    fn settle(&mut self, _alloc: Global, params: &Params) -> Result<(), SettleRefusal> {
        if let Some(line) = counter_line_off(params) {
            return Err(SettleRefusal::BadParameter(line));
        }
        self.delay = time_setting(params, b"delay", time(0));
        self.start = value_setting(params, b"start", number(0));
        self.step = value_setting(params, b"step", number(100_000));
        self.total = self.start;
        self.due = None;
        Ok(())
    }

    fn next(&self) -> Option<Time> {
        self.due
    }

    fn output(&self, into: &mut Vec<(PortNo, Value)>) -> Result<(), OutOfMemory> {
        give(&self.total, into)
    }

    fn advance(&mut self, now: Time, bag: &[(PortNo, Value)]) -> Result<(), AdvanceRefusal> {
        let Ok(total) = self.total_after(bag) else {
            return Err(AdvanceRefusal::Overflow);
        };
        self.due = self.due_after(now, bag);
        self.total = total;
        Ok(())
    }

    fn save(&self, into: &mut Vec<i64>) -> Result<(), OutOfMemory> {
        put(&[value_word(self.total), time_word(self.due)], into)
    }

    fn restore(&mut self, _alloc: Global, words: &[i64]) -> Result<(), RestoreRefusal> {
        let [total, due] = words else {
            return Err(RestoreRefusal::BadState);
        };
        self.take_state(*total, *due)
    }
}

impl CounterModel {
    ghost use Rattle.std.specs.Prelude.{[], ◌∷◌};
    ghost use Rattle.atomic_face.specs.declared.class.Class.TheVariants.{Counter};
    ghost use Rattle.atomic_face.specs.BoxCalls.{box_at_start, RestoreGives};
    ghost use Rattle.atomic_face.specs.Settings.{settings_of};
    ghost use Rattle.atomic_kinds.specs.Counter.{due_after, held_counter, Counts, CountsAll};

    /// A counter as no parameters settle it: without delay, from 0 in steps of 1.
    pub fn new() -> CounterModel
        ensures { held_counter result ≡ box_at_start Counter (settings_of Counter []) }
    {
        CounterModel {
            delay: time(0),
            start: number(0),
            step: number(100_000),
            total: number(0),
            due: None,
        }
    }

    fn total_after(&self, bag: &[(PortNo, Value)]) -> Result<Value, Overflow>
        ensures { CountsAll self.now bag.now result }
    {
        let mut total = self.total;
        for input in bag {
            total = self.counted(total, input)?;
        }
        Ok(total)
    }

    fn counted(&self, total: Value, input: &(PortNo, Value)) -> Result<Value, Overflow>
        ensures { Counts self.now total input.now result }
    {
        if input.0.0 == 0 {
            sum(&total, &self.step)
        } else {
            Ok(self.start)
        }
    }

    fn due_after(&self, now: Time, bag: &[(PortNo, Value)]) -> Option<Time>
        requires { now ≤ MAX_DELAY }
        ensures { result ≡ due_after self.now.delay now bag.now self.now.due }
    {
        if !bag.is_empty() {
            Some(now.after(self.delay))
        } else if is_at(now, self.due) {
            None
        } else {
            self.due
        }
    }

    // The state of these two numbers, if they are one.
    fn take_state(&mut self, total: i64, due: i64) -> Result<(), RestoreRefusal>
        ensures { RestoreGives (total ∷ due ∷ []) (held_counter self.old) (held_counter self.new)
            result }
    {
        let Some(total) = value_of(total) else {
            return Err(RestoreRefusal::BadState);
        };
        let Some(due) = due_of(due) else {
            return Err(RestoreRefusal::BadState);
        };
        self.total = total;
        self.due = due;
        Ok(())
    }
}

fn counter_line_off(params: &Params) -> Option<u32>
    ensures { result ≡ first_line_off Class.Counter params.now.entries.items }
{
    let delay = line_off(params, b"delay", Form::Time);
    let start = line_off(params, b"start", Form::Value);
    let step = line_off(params, b"step", Form::Value);
    least(delay, least(start, step))
}
