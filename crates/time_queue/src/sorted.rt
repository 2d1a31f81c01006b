// The queue whose entries stand in order.
ghost use Rattle.std.specs.Prelude.{◌≡◌, ℕ, ◌+◌, ◌<◌, ◌≤◌, [], ◌∷◌, Option, List, length, replicate, IfOk, slice_set, slice_index_or, vec_len, nat_lt};
ghost use Rattle.std.specs.List.Sorted.{IsNonDecreasingBy};
ghost use Rattle.std.specs.List.{insert};
ghost use Rattle.std.specs.Vec.{vec_capacity};
ghost use Rattle.time_queue.specs.Waiting.{waiting_time};
ghost use Rattle.time_queue.specs.Sorted.{rank, IsInOrder};

use crate::due::{DueFirst, take_due};
use crate::entry::Entry;
use crate::queue::TimeQueue;
use quantity::{OutOfMemory, Time};
use std::alloc::Global;
use std::marker::Model;

/// Next times as a list ordered by time and leaf: the least stands first, and a change moves what
/// stands behind it.
#[derive(Drop)]
pub struct SortedQueue {
    times: Vec<Option<Time>>,
    entries: Vec<Entry>,
}

impl Model for SortedQueue {
    ghost use Rattle.std.specs.Prelude.{ℕ, List, Option};

    ghost Value = { List (Option ℕ) };

    ghost use Rattle.time_queue.specs.Sorted.{IsInOrder};

    ghost view = { λ q. q.times.items };

    ghost invariant = { λ q. IsInOrder q.times q.entries };
}

impl SortedQueue {
    /// A queue of so many leaves, of which none waits.
    pub fn with_leaves(alloc: Global, n: u32) -> Result<SortedQueue, OutOfMemory>
        ensures { IfOk result (λ q. q ≡ replicate n None) }
    {
        let times = vec![in alloc; None; n as usize]?;
        let entries = Vec::with_capacity(alloc, n as usize)?;
        Ok(SortedQueue { times, entries })
    }
}

impl TimeQueue for SortedQueue {
    ghost waiting = { λ q. q };

    fn set(&mut self, leaf: u32, at: Time) {
        leave(&mut self.times, &mut self.entries, leaf);
        enter(&mut self.times, &mut self.entries, leaf, at);
    }

    fn clear(&mut self, leaf: u32) {
        leave(&mut self.times, &mut self.entries, leaf);
    }

    fn least(&self) -> Option<Time> {
        let first = self.first()?;
        Some(first.at)
    }

    fn take_all_at(&mut self, at: Time, into: &mut Vec<u32>) {
        take_due(self, at, into);
    }
}

impl DueFirst for SortedQueue {
    ghost waiting = { λ q. q };

    fn leaves(&self) -> u32 {
        self.times.len() as u32
    }

    fn time_of(&self, leaf: u32) -> Option<Time> {
        self.times[leaf as usize]
    }

    fn first(&self) -> Option<Entry> {
        if self.entries.is_empty() {
            return None;
        }
        Some(self.entries[0])
    }

    fn remove(&mut self, leaf: u32) {
        leave(&mut self.times, &mut self.entries, leaf);
    }
}

fn enter(times: &mut Vec<Option<Time>>, entries: &mut Vec<Entry>, leaf: u32, at: Time)
    requires order { IsInOrder times.old entries.old }
    requires within { leaf < length times.old.items }
    requires none { waiting_time times.old.items leaf ≡ None }
    ensures times { times.new.items ≡ slice_set times.old.items leaf (Some at) }
    ensures order { IsInOrder times.new entries.new }
{
    let place = place_of(entries, Entry { at, leaf });
    insert_reserved(entries, place, Entry { at, leaf });
    times[leaf as usize] = Some(at);
}

fn leave(times: &mut Vec<Option<Time>>, entries: &mut Vec<Entry>, leaf: u32)
    requires order { IsInOrder times.old entries.old }
    requires within { leaf < length times.old.items }
    ensures times { times.new.items ≡ slice_set times.old.items leaf None }
    ensures order { IsInOrder times.new entries.new }
{
    let Some(at) = times[leaf as usize] else {
        return;
    };
    let place = place_of(entries, Entry { at, leaf });
    entries.remove(place);
    times[leaf as usize] = None;
}

// How many entries stand before this one, or would.
fn place_of(entries: &[Entry], entry: Entry) -> usize
    requires { IsNonDecreasingBy rank entries.now }
    ensures bound { result ≤ length entries.now }
    ensures before { (k : ℕ) (d : Entry) → k < result
        → rank (slice_index_or entries.now k d) < rank entry }
    ensures behind { (k : ℕ) (d : Entry) → result ≤ k → k < length entries.now
        → rank entry ≤ rank (slice_index_or entries.now k d) }
{
    entries.partition_point(|e| is_before(*e, entry))
}

fn is_before(a: Entry, b: Entry) -> bool
    ensures { result ≡ nat_lt (rank a) (rank b) }
{
    if a.at != b.at {
        return a.at < b.at;
    }
    a.leaf < b.leaf
}

fn insert_reserved(entries: &mut Vec<Entry>, place: usize, entry: Entry)
    requires within { place ≤ vec_len entries.old }
    requires room { vec_len entries.old < vec_capacity entries.old }
    ensures items { entries.new.items ≡ insert entries.old.items place entry }
    ensures capacity { vec_capacity entries.new ≡ vec_capacity entries.old }
{
    match entries.insert(place, entry) {
        Ok(()) => {}
        Err(_) => unreachable!(),
    }
}
