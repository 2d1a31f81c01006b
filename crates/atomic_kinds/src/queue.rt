// Queues.
ghost use Rattle.std.specs.Prelude.{◌≡◌, ◌<◌, ◌≤◌, ◌+◌, pos, length, map, if◌then◌else◌, IfOk};
ghost use Rattle.std.specs.VecDeque.{deque_len, deque_capacity};
ghost use Rattle.quantity.specs.declared.bounds.TheConstants.{MAX_DELAY};
ghost use Rattle.atomic_face.specs.Settings.{first_line_off};
ghost use Rattle.atomic_face.specs.Words.{word_of};
ghost use Rattle.atomic_kinds.specs.Phases.{phase_number, ReadsPhase, ReadsValues};

use crate::parameters::{Form, line_off, time_setting};
use atomic_face::words::{NONE, give, is_at, put, time, time_of, time_word, value_of, value_word};
use atomic_face::{
    AdvanceRefusal, AtomicModel, Class, Params, PortNo, RestoreRefusal, SettleRefusal,
};
use quantity::{OutOfMemory, Time, Value};
use std::alloc::{AllocError, Global};
use std::collections::VecDeque;

/// What a queue is doing.
#[derive(Clone, Copy)]
pub enum Phase {
    /// It waits for values.
    Idle,
    /// It gives its first value out at this time.
    Preparing(Time),
    /// It gave a value out, and waits until that is done.
    GivenOut,
}

/// Gives the values at `in` out one by one, in the order of their arrival: each after a
/// preparation, and the next one only once a value at `done` says that the last one is done.
#[derive(Drop)]
pub struct QueueModel {
    preparation: Time,
    phase: Phase,
    waiting: VecDeque<Value>,
    ghost short: { preparation ≤ MAX_DELAY },
}

impl AtomicModel for QueueModel {
    ghost use Rattle.atomic_kinds.specs.Queue.{held_queue};

    ghost held = { held_queue };

    fn class(&self) -> Class {
        Class::Queue
    }

    fn settle(&mut self, _alloc: Global, params: &Params) -> Result<(), SettleRefusal> {
        if let Some(line) = queue_line_off(params) {
            return Err(SettleRefusal::BadParameter(line));
        }
        self.preparation = time_setting(params, b"preparation", time(0));
        self.phase = Phase::Idle;
        self.waiting.clear();
        Ok(())
    }

    fn next(&self) -> Option<Time> {
        self.due()
    }

    fn output(&self, into: &mut Vec<(PortNo, Value)>) -> Result<(), OutOfMemory> {
        match self.waiting.front() {
            Some(value) => give(value, into),
            None => Ok(()),
        }
    }

    fn advance(&mut self, now: Time, bag: &[(PortNo, Value)]) -> Result<(), AdvanceRefusal> {
        if self.waiting.reserve(bag.len()).is_err() {
            return Err(AdvanceRefusal::Memory);
        }
        self.give_out(now);
        self.take_all(bag);
        self.prepare(now);
        Ok(())
    }

    fn save(&self, into: &mut Vec<i64>) -> Result<(), OutOfMemory> {
        let words = self.words(*into.allocator())?;
        put(&words, into)
    }

    fn restore(&mut self, alloc: Global, words: &[i64]) -> Result<(), RestoreRefusal> {
        let [phase, due, waiting @ ..] = words else {
            return Err(RestoreRefusal::BadState);
        };
        self.take_state(alloc, *phase, *due, waiting)
    }
}

impl QueueModel {
    ghost use Rattle.std.specs.Prelude.{[], ◌∷◌, Option};
    ghost use Rattle.atomic_face.specs.declared.class.Class.TheVariants.{Queue};
    ghost use Rattle.atomic_face.specs.Queue.{queue_next, queue_internal, queue_input, queue_inputs, queue_closing};
    ghost use Rattle.atomic_face.specs.Classes.{is_at};
    ghost use Rattle.atomic_face.specs.BoxCalls.{box_at_start, RestoreGives};
    ghost use Rattle.atomic_face.specs.Settings.{settings_of};
    ghost use Rattle.atomic_kinds.specs.Queue.{held_queue, state_in};

    /// A queue as no parameters settle it: idle, and without preparation.
    pub fn new(alloc: Global) -> QueueModel
        ensures { held_queue result ≡ box_at_start Queue (settings_of Queue []) }
    {
        QueueModel {
            preparation: time(0),
            phase: Phase::Idle,
            waiting: VecDeque::new(alloc),
        }
    }

    // When the first value is given out.
    fn due(&self) -> Option<Time>
        ensures { result ≡ queue_next (state_in self.now) }
    {
        match self.phase {
            Phase::Preparing(due) => Some(due),
            Phase::Idle | Phase::GivenOut => None,
        }
    }

    // Where the first value is due, it leaves.
    fn give_out(&mut self, now: Time)
        ensures state { state_in self.new ≡
            (if is_at now (queue_next (state_in self.old)) then queue_internal (state_in self.old)
            else state_in self.old) }
        ensures preparation { self.new.preparation ≡ self.old.preparation }
        ensures fewer { deque_len self.new.waiting ≤ deque_len self.old.waiting }
        ensures capacity { deque_capacity self.new.waiting ≡ deque_capacity self.old.waiting }
    {
        if is_at(now, self.due()) {
            self.waiting.pop_front();
            self.phase = Phase::GivenOut;
        }
    }

    fn take_all(&mut self, bag: &[(PortNo, Value)])
        requires { deque_len self.old.waiting + length bag.now ≤ deque_capacity self.old.waiting }
        ensures state { state_in self.new ≡ queue_inputs (state_in self.old) bag.now }
        ensures preparation { self.new.preparation ≡ self.old.preparation }
    {
        for input in bag {
            self.take(input);
        }
    }

    // A value at `in` joins those that wait, and one at `done` ends the wait for it.
    fn take(&mut self, input: &(PortNo, Value))
        requires { deque_len self.old.waiting < deque_capacity self.old.waiting }
        ensures state { state_in self.new ≡ queue_input (state_in self.old) input.now }
        ensures preparation { self.new.preparation ≡ self.old.preparation }
        ensures one_more { deque_len self.new.waiting ≤ deque_len self.old.waiting + 1 }
        ensures capacity { deque_capacity self.new.waiting ≡ deque_capacity self.old.waiting }
    {
        if input.0.0 == 0 {
            self.waiting.push_back_reserved(input.1);
        } else if let Phase::GivenOut = self.phase {
            self.phase = Phase::Idle;
        }
    }

    // An idle queue prepares the first value that waits.
    fn prepare(&mut self, now: Time)
        requires { now ≤ MAX_DELAY }
        ensures state { state_in self.new ≡ queue_closing self.old.preparation now
            (state_in self.old) }
        ensures preparation { self.new.preparation ≡ self.old.preparation }
    {
        if let Phase::Idle = self.phase
            && !self.waiting.is_empty()
        {
            self.phase = Phase::Preparing(now.after(self.preparation));
        }
    }

    // The state of these numbers, if they are one.
    fn take_state(
        &mut self,
        alloc: Global,
        phase: i64,
        due: i64,
        waiting: &[i64],
    ) -> Result<(), RestoreRefusal>
        ensures { RestoreGives (phase ∷ due ∷ waiting.now) (held_queue self.old)
            (held_queue self.new) result }
    {
        let Some(phase) = phase_of(phase, due, waiting) else {
            return Err(RestoreRefusal::BadState);
        };
        let waiting = values_of(alloc, waiting)?;
        self.phase = phase;
        self.waiting = waiting;
        Ok(())
    }

    // The numbers of the state.
    fn words(&self, alloc: Global) -> Result<Vec<i64>, AllocError>
        ensures { IfOk result (λ words. words.items ≡ (held_queue self.now).state) }
    {
        let mut words = vec![in alloc; self.phase_word(), time_word(self.due())]?;
        let mut waiting = value_words(alloc, &self.waiting)?;
        words.append(&mut waiting)?;
        Ok(words)
    }

    fn phase_word(&self) -> i64
        ensures { result ≡ pos (phase_number self.now.phase) }
    {
        match self.phase {
            Phase::Idle => 0,
            Phase::Preparing(_) => 1,
            Phase::GivenOut => 2,
        }
    }
}

fn value_words(alloc: Global, values: &VecDeque<Value>) -> Result<Vec<i64>, AllocError>
    ensures { IfOk result (λ words. words.items ≡ map word_of values.now.items) }
{
    values.iter().map(|value| value_word(*value)).collect(alloc)
}

// The phase of a state with these numbers; None where they are none.
fn phase_of(phase: i64, due: i64, waiting: &[i64]) -> Option<Phase>
    ensures { ReadsPhase phase due waiting.now result }
{
    if phase == 1 {
        if waiting.is_empty() {
            return None;
        }
        return match time_of(due) {
            Some(due) => Some(Phase::Preparing(due)),
            None => None,
        };
    }
    if due != NONE {
        return None;
    }
    if phase == 2 {
        return Some(Phase::GivenOut);
    }
    if phase == 0 && waiting.is_empty() {
        Some(Phase::Idle)
    } else {
        None
    }
}

// The values of these numbers. BadState where one of them is the number of none.
fn values_of(alloc: Global, words: &[i64]) -> Result<VecDeque<Value>, RestoreRefusal>
    ensures { ReadsValues words.now result }
{
    let mut values = VecDeque::new(alloc);
    for word in words {
        let Some(value) = value_of(*word) else {
            return Err(RestoreRefusal::BadState);
        };
        if values.push_back(value).is_err() {
            return Err(RestoreRefusal::Memory);
        }
    }
    Ok(values)
}

fn queue_line_off(params: &Params) -> Option<u32>
    ensures { result ≡ first_line_off Class.Queue params.now.entries.items }
{
    line_off(params, b"preparation", Form::Time)
}
