// The queue whose leaves of one time stand in lists.
ghost use Rattle.std.specs.Prelude.{◌≡◌, ◌<◌, None, Some, length, replicate, IfOk, slice_set};
ghost use Rattle.time_queue.specs.Waiting.{waiting_time};
ghost use Rattle.time_queue.specs.Lists.{AreLinked};

use crate::TimeQueue;
use crate::due::{DueFirst, some_before, sort, take_scattered};
use crate::entry::Entry;
use crate::lists::Lists;
use quantity::{OutOfMemory, Time};
use std::alloc::Global;
use std::marker::Model;

/// Next times as lists of the leaves that wait for one time, in the order in which they were set,
/// with the first leaf of each list in a heap. Where a leaf is set, the list of its time is guessed
/// by the leaf that was set last for a time of the same remainder; where that fails, a list begins.
#[derive(Drop)]
pub struct LinkedQueue {
    lists: Lists,
    // A prime number of guesses, since times are often multiples of one number.
    guesses: [u32; 1021],
}

impl Model for LinkedQueue {
    ghost use Rattle.std.specs.Prelude.{ℕ, List, Option, None};

    ghost Value = { List (Option ℕ) };

    ghost use Rattle.time_queue.specs.Lists.{AreLinked};

    ghost view = { λ q. q.lists.times.items };

    ghost invariant = { λ q. AreLinked q.lists None };
}

impl LinkedQueue {
    /// A queue of so many leaves, of which none waits.
    pub fn with_leaves(alloc: Global, n: u32) -> Result<LinkedQueue, OutOfMemory>
        ensures { IfOk result (λ q. q ≡ replicate n None) }
    {
        let lists = Lists::new(alloc, n)?;
        Ok(LinkedQueue {
            lists,
            guesses: [0; 1021],
        })
    }
}

impl TimeQueue for LinkedQueue {
    ghost waiting = { λ q. q };

    fn set(&mut self, leaf: u32, at: Time) {
        let place = (at.ms() % 1021) as usize;
        self.lists.leave(leaf);
        enter(&mut self.lists, self.guesses[place], leaf, at);
        self.guesses[place] = leaf;
    }

    fn clear(&mut self, leaf: u32) {
        self.lists.leave(leaf);
    }

    fn least(&self) -> Option<Time> {
        self.lists.firsts.least()
    }

    fn take_all_at(&mut self, at: Time, into: &mut Vec<u32>) {
        if some_before(self, at) {
            take_scattered(self, at, into);
            return;
        }
        self.lists.take_lists(at, into);
        sort(into);
    }
}

impl DueFirst for LinkedQueue {
    ghost waiting = { λ q. q };

    fn leaves(&self) -> u32 {
        self.lists.times.len() as u32
    }

    fn time_of(&self, leaf: u32) -> Option<Time> {
        self.lists.times[leaf as usize].get()
    }

    fn first(&self) -> Option<Entry> {
        self.lists.firsts.first()
    }

    fn remove(&mut self, leaf: u32) {
        self.lists.leave(leaf);
    }
}

// The leaf waits for this time, behind the guessed leaf if that is the last of a list of this time.
fn enter(lists: &mut Lists, guess: u32, leaf: u32, at: Time)
    requires linked { AreLinked lists.old None }
    requires within { leaf < length lists.old.times.items }
    requires idle { waiting_time lists.old.times.items leaf ≡ None }
    ensures times { lists.new.times.items ≡ slice_set lists.old.times.items leaf (Some at) }
    ensures linked { AreLinked lists.new None }
{
    if lists.ends_at(guess, at) {
        lists.append(guess, leaf, at);
    } else {
        lists.start(leaf, at);
    }
}
