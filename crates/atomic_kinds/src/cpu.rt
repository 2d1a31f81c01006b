// Cpus.
ghost use Rattle.std.specs.Prelude.{◌≡◌, ◌<◌, ◌≤◌, ◌+◌, ◌++◌, length, drop, true, IfOk, MatchOption, OnOk, OnErr};
ghost use Rattle.std.specs.VecDeque.{deque_len, deque_capacity};
ghost use Rattle.quantity.specs.declared.bounds.TheConstants.{MAX_DELAY};
ghost use Rattle.atomic_face.specs.Cpu.{cpu_inputs, cpu_next, cpu_put};
ghost use Rattle.atomic_face.specs.Settings.{first_line_off};
ghost use Rattle.atomic_kinds.specs.Pairs.{given_at, given_by, left_at, pair_words, place_for, rises_from, word_pairs, GivenFrom, HasPair, LacksPair, ReadsPair, ReadsPairs};

use crate::parameters::{Form, line_off, time_setting};
use atomic_face::words::{is_at, put, time, time_of, time_word, value_of, value_word};
use atomic_face::{
    AdvanceRefusal, AtomicModel, Class, Params, PortNo, RestoreRefusal, SettleRefusal,
};
use quantity::{OutOfMemory, Time, Value};
use std::alloc::{AllocError, Global};
use std::collections::VecDeque;

/// Gives each value at `in` on after a delay, all values of one time at once.
#[derive(Drop)]
pub struct CpuModel {
    delay: Time,
    // By rising time, and at one time in the order of their arrival.
    pairs: VecDeque<(Time, Value)>,
    ghost short: { delay ≤ MAX_DELAY },
    ghost rising: { rises_from 0 pairs.items ≡ true },
}

impl AtomicModel for CpuModel {
    ghost use Rattle.atomic_kinds.specs.Cpu.{held_cpu};

    ghost held = { held_cpu };

    fn class(&self) -> Class {
        Class::Cpu
    }

    fn settle(&mut self, _alloc: Global, params: &Params) -> Result<(), SettleRefusal> {
        if let Some(line) = cpu_line_off(params) {
            return Err(SettleRefusal::BadParameter(line));
        }
        self.delay = time_setting(params, b"delay", time(0));
        self.pairs.clear();
        Ok(())
    }

    fn next(&self) -> Option<Time> {
        first_time(&self.pairs)
    }

    fn output(&self, into: &mut Vec<(PortNo, Value)>) -> Result<(), OutOfMemory> {
        match first_time(&self.pairs) {
            Some(due) => give_due(&self.pairs, due, into),
            None => Ok(()),
        }
    }

    fn advance(&mut self, now: Time, bag: &[(PortNo, Value)]) -> Result<(), AdvanceRefusal> {
        if self.pairs.reserve(bag.len()).is_err() {
            return Err(AdvanceRefusal::Memory);
        }
        leave(&mut self.pairs, now);
        put_all(&mut self.pairs, now.after(self.delay), bag);
        Ok(())
    }

    fn save(&self, into: &mut Vec<i64>) -> Result<(), OutOfMemory> {
        let words = words_of(*into.allocator(), &self.pairs)?;
        put(&words, into)
    }

    fn restore(&mut self, alloc: Global, words: &[i64]) -> Result<(), RestoreRefusal> {
        let pairs = pairs_of(alloc, words)?;
        self.pairs = pairs;
        Ok(())
    }
}

impl CpuModel {
    ghost use Rattle.atomic_face.specs.declared.class.Class.TheVariants.{Cpu};
    ghost use Rattle.std.specs.Prelude.{[]};
    ghost use Rattle.atomic_face.specs.BoxCalls.{box_at_start};
    ghost use Rattle.atomic_face.specs.Settings.{settings_of};
    ghost use Rattle.atomic_kinds.specs.Cpu.{held_cpu};

    /// A cpu as no parameters settle it: empty, and without delay.
    pub fn new(alloc: Global) -> CpuModel
        ensures { held_cpu result ≡ box_at_start Cpu (settings_of Cpu []) }
    {
        CpuModel {
            delay: time(0),
            pairs: VecDeque::new(alloc),
        }
    }
}

fn first_time(pairs: &VecDeque<(Time, Value)>) -> Option<Time>
    ensures { result ≡ cpu_next (word_pairs pairs.now.items) }
{
    match pairs.front() {
        Some(pair) => Some(pair.0),
        None => None,
    }
}

// Appends the values of the pairs of this time, the first of all. Where memory is refused, `into`
// stays as it was.
fn give_due(
    pairs: &VecDeque<(Time, Value)>,
    due: Time,
    into: &mut Vec<(PortNo, Value)>,
) -> Result<(), OutOfMemory>
    requires { rises_from due pairs.now.items ≡ true }
    ensures ok { OnOk result (into.new.items ≡ into.old.items ++ given_at due pairs.now.items) }
    ensures err { OnErr result (into.new.items ≡ into.old.items) }
{
    let len = into.len();
    let mut place = 0;
    while let Some(given) = given_from(pairs, place, due) {
        if into.push(given).is_err() {
            into.truncate(len);
            return Err(OutOfMemory);
        }
        place += 1;
    }
    Ok(())
}

// What the pair at a place gives, where it is of this time.
fn given_from(pairs: &VecDeque<(Time, Value)>, place: usize, due: Time) -> Option<(PortNo, Value)>
    requires { rises_from due (drop place pairs.now.items) ≡ true }
    ensures { GivenFrom due pairs.now.items place result }
{
    let Some(pair) = pairs.get(place) else {
        return None;
    };
    if pair.0.ms() == due.ms() {
        Some(given_by(pair))
    } else {
        None
    }
}

fn given_by(pair: &(Time, Value)) -> (PortNo, Value)
    ensures { result ≡ given_by pair.now }
{
    // For the proof: the value is bounded.
    let _ = pair.1.known();
    (PortNo(0), pair.1)
}

// Where the first pairs are due now, all pairs of this time leave: they stand before all others.
fn leave(pairs: &mut VecDeque<(Time, Value)>, now: Time)
    requires { rises_from 0 pairs.old.items ≡ true }
    ensures items { pairs.new.items ≡ left_at now pairs.old.items }
    ensures rising { rises_from 0 pairs.new.items ≡ true }
    ensures fewer { deque_len pairs.new ≤ deque_len pairs.old }
    ensures capacity { deque_capacity pairs.new ≡ deque_capacity pairs.old }
{
    while is_at(now, first_time(pairs)) {
        pairs.pop_front();
    }
}

fn put_all(pairs: &mut VecDeque<(Time, Value)>, at: Time, bag: &[(PortNo, Value)])
    requires rising { rises_from 0 pairs.old.items ≡ true }
    requires room { deque_len pairs.old + length bag.now ≤ deque_capacity pairs.old }
    ensures items { word_pairs pairs.new.items
        ≡ cpu_inputs at (word_pairs pairs.old.items) bag.now }
    ensures rising { rises_from 0 pairs.new.items ≡ true }
{
    for input in bag {
        put_at(pairs, at, &input.1);
    }
}

// Puts a value behind all pairs that are no later. There is room for it.
fn put_at(pairs: &mut VecDeque<(Time, Value)>, at: Time, value: &Value)
    requires rising { rises_from 0 pairs.old.items ≡ true }
    requires room { deque_len pairs.old < deque_capacity pairs.old }
    ensures items { word_pairs pairs.new.items ≡ cpu_put at value.now (word_pairs pairs.old.items) }
    ensures rising { rises_from 0 pairs.new.items ≡ true }
    ensures one_more { deque_len pairs.new ≡ deque_len pairs.old + 1 }
    ensures capacity { deque_capacity pairs.old ≤ deque_capacity pairs.new }
{
    let place = place_after(pairs, at);
    let _ = pairs.insert(place, (at, *value));
}

// The place of the first pair that is later, or behind the last. As nearly every value is put
// behind all others, it is looked for from there.
fn place_after(pairs: &VecDeque<(Time, Value)>, at: Time) -> usize
    requires { rises_from 0 pairs.now.items ≡ true }
    ensures place { result ≡ place_for at pairs.now.items }
    ensures within { result ≤ deque_len pairs.now }
{
    let mut place = pairs.len();
    while place > 0 && pairs[place - 1].0.ms() > at.ms() {
        place -= 1;
    }
    place
}

fn words_of(alloc: Global, pairs: &VecDeque<(Time, Value)>) -> Result<Vec<i64>, AllocError>
    ensures { IfOk result (λ words. words.items ≡ pair_words pairs.now.items) }
{
    let (front, back) = pairs.as_slices();
    let mut words = Vec::new(alloc);
    put_words(front, &mut words)?;
    put_words(back, &mut words)?;
    Ok(words)
}

fn put_words(pairs: &[(Time, Value)], words: &mut Vec<i64>) -> Result<(), AllocError>
    ensures { OnOk result (words.new.items ≡ words.old.items ++ pair_words pairs.now) }
{
    for pair in pairs {
        words.push(time_word(Some(pair.0)))?;
        words.push(value_word(pair.1))?;
    }
    Ok(())
}

// The pairs of these numbers. BadState where they are no pairs by rising time.
fn pairs_of(alloc: Global, words: &[i64]) -> Result<VecDeque<(Time, Value)>, RestoreRefusal>
    ensures { ReadsPairs words.now result }
{
    let mut pairs = VecDeque::new(alloc);
    let mut before = time(0);
    let mut rest = words;
    while let Some((pair, others)) = first_pair(before, rest) {
        before = pair.0;
        if pairs.push_back(pair).is_err() {
            return Err(RestoreRefusal::Memory);
        }
        rest = others;
    }
    if rest.is_empty() {
        Ok(pairs)
    } else {
        Err(RestoreRefusal::BadState)
    }
}

// The pair of the first two of these numbers, which is no earlier than the one before it, and the
// others.
fn first_pair(before: Time, words: &[i64]) -> Option<((Time, Value), &[i64])>
    ensures { MatchOption result (LacksPair before words.now)
        (λ r. HasPair before words.now r.0 r.1.now) }
{
    match words {
        [at, value, others @ ..] => match pair_of(before, *at, *value) {
            Some(pair) => Some((pair, others)),
            None => None,
        },
        _ => None,
    }
}

fn pair_of(before: Time, at: i64, value: i64) -> Option<(Time, Value)>
    ensures { ReadsPair before at value result }
{
    let Some(time) = time_of(at) else {
        return None;
    };
    if time.ms() < before.ms() {
        return None;
    }
    match value_of(value) {
        Some(value) => Some((time, value)),
        None => None,
    }
}

fn cpu_line_off(params: &Params) -> Option<u32>
    ensures { result ≡ first_line_off Class.Cpu params.now.entries.items }
{
    line_off(params, b"delay", Form::Time)
}
