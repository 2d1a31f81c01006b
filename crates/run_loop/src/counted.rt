// What the last line of a made model counts.
ghost use Rattle.std.specs.Prelude.{◌≡◌, ◌+◌, map, count_by, slice_set, IfOk, OnOk, OnErr};
ghost use Rattle.quantity.specs.Arithmetic.{same_value};
ghost use Rattle.rule_tree.specs.Meaning.{whole};
ghost use Rattle.run_model.specs.Run.{Cycle};
ghost use Rattle.text_forms.specs.Held.{Holds};
ghost use Rattle.run_loop.specs.Counts.{no_counts, ones_after, counts_after, CountsHeld};
ghost use Rattle.run_loop.specs.Showing.{plain};

use quantity::{OutOfMemory, Value};
use std::alloc::Global;
use std::marker::Model;
use text_forms::{Records, YRecord};

/// How many Y and S records there were, and for each leaf whether the last value that it gave is 1.
#[derive(Drop)]
pub struct Counted {
    y: u64,
    s: u64,
    ones: Vec<bool>,
}

impl Model for Counted {
    ghost use Rattle.run_loop.specs.Counts.{Counts};

    ghost Value = { Counts };

    ghost view = { λ k. record { y = k.y; s = k.s; ones = k.ones.items } };
}

impl Counted {
    /// Nothing is counted yet of a model with so many leaves.
    pub fn new(alloc: Global, leaves: u32) -> Result<Counted, OutOfMemory>
        ensures { IfOk result (λ k. k ≡ no_counts leaves) }
    {
        let ones = vec![in alloc; false; leaves as usize]?;
        Ok(Counted { y: 0, s: 0, ones })
    }

    /// The number of Y records.
    pub fn y(&self) -> u64
        ensures { result ≡ self.now.y }
    {
        self.y
    }

    /// The number of S records.
    pub fn s(&self) -> u64
        ensures { result ≡ self.now.s }
    {
        self.s
    }

    /// The number of leaves whose last value is 1.
    pub fn ones(&self) -> u64
        ensures { result ≡ count_by (λ b. b) self.now.ones }
    {
        self.ones.iter().filter(|one| **one).count() as u64
    }

    /// Counts the records of a cycle. A count past 64 bits is want of memory, and changes nothing.
    fn add(&mut self, records: &Records) -> Result<(), OutOfMemory>
        ensures ok { OnOk result ((c : Cycle) → Holds records.now c
            → self.new ≡ counts_after c self.old) }
        ensures err { OnErr result (self.new ≡ self.old) }
    {
        let y = sum(self.y, records.y.len())?;
        let s = sum(self.s, records.s.len())?;
        self.y = y;
        self.s = s;
        mark(&mut self.ones, &records.y);
        Ok(())
    }
}

/// Counts the records of a cycle, where that is asked for. A count past 64 bits is want of memory,
/// and changes nothing.
pub fn count(counted: &mut Option<Counted>, records: &Records) -> Result<(), OutOfMemory>
    ensures ok { OnOk result (CountsHeld records.now counted.old counted.new) }
    ensures err { OnErr result (counted.new ≡ counted.old) }
{
    match counted {
        None => Ok(()),
        Some(counted) => counted.add(records),
    }
}

/// A sum that fits.
fn sum(count: u64, more: usize) -> Result<u64, OutOfMemory>
    ensures { IfOk result (λ n. n ≡ count + more) }
{
    match count.checked_add(more as u64) {
        Some(sum) => Ok(sum),
        None => Err(OutOfMemory),
    }
}

/// Marks the leaves that gave 1.
fn mark(ones: &mut Vec<bool>, given: &[YRecord])
    ensures { ones.new.items ≡ ones_after ones.old.items (map plain given.now) }
{
    for one in given {
        mark_one(ones, one.leaf as usize, is_one(one.value.get()));
    }
}

/// Marks a leaf, where there is one.
fn mark_one(ones: &mut Vec<bool>, leaf: usize, is_one: bool)
    ensures { ones.new.items ≡ slice_set ones.old.items leaf is_one }
{
    if leaf < ones.len() {
        ones[leaf] = is_one;
    }
}

/// Whether the value is 1.
fn is_one(value: Value) -> bool
    ensures { result ≡ same_value value (whole 1) }
{
    let Value::Num(x) = value else {
        return false;
    };
    x.get() == 100_000
}
