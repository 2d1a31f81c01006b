// Leaves that wait, in lists.
ghost use Rattle.std.specs.Prelude.{◌≡◌, ◌+◌, ◌<◌, ◌≤◌, None, Some, true, length, replicate, IfOk, IfSome, slice_set, vec_len};
ghost use Rattle.std.specs.Vec.{vec_capacity};
ghost use Rattle.time_queue.specs.Waiting.{waiting_time, leaves_at, NoneBefore};
ghost use Rattle.time_queue.specs.Taking.{NoneAt, TakesMore};
ghost use Rattle.time_queue.specs.Lists.{AreLinked, link_of};

use crate::due::DueFirst;
use crate::{HeapQueue, TimeQueue};
use quantity::{MaybeNumber, MaybeTime, OutOfMemory, Time};
use std::alloc::Global;

/// The leaves that wait, in lists whose leaves wait for one time. The first leaf of each list
/// stands in a heap.
#[derive(Drop)]
pub struct Lists {
    pub times: Vec<MaybeTime>,
    pub before: Vec<MaybeNumber>,
    pub after: Vec<MaybeNumber>,
    pub firsts: HeapQueue,
}

impl Lists {
    /// So many leaves, of which none waits.
    pub fn new(alloc: Global, n: u32) -> Result<Lists, OutOfMemory>
        ensures times { IfOk result (λ l. l.times.items ≡ replicate n None) }
        ensures linked { IfOk result (λ l. AreLinked l None) }
    {
        Ok(Lists {
            times: vec![in alloc; MaybeTime::none(); n as usize]?,
            before: vec![in alloc; MaybeNumber::none(); n as usize]?,
            after: vec![in alloc; MaybeNumber::none(); n as usize]?,
            firsts: HeapQueue::with_leaves(alloc, n)?,
        })
    }

    /// The leaf waits for this time, alone in a list.
    pub fn start(&mut self, leaf: u32, at: Time)
        requires linked { AreLinked self.old None }
        requires within { leaf < length self.old.times.items }
        requires idle { waiting_time self.old.times.items leaf ≡ None }
        ensures times { self.new.times.items ≡ slice_set self.old.times.items leaf (Some at) }
        ensures linked { AreLinked self.new None }
    {
        self.times[leaf as usize] = MaybeTime::some(at);
        self.firsts.set(leaf, at);
    }

    /// The leaf waits for the time of this last leaf of a list, behind it.
    pub fn append(&mut self, last: u32, leaf: u32, at: Time)
        requires linked { AreLinked self.old None }
        requires within { leaf < length self.old.times.items }
        requires idle { waiting_time self.old.times.items leaf ≡ None }
        requires same { waiting_time self.old.times.items last ≡ Some at }
        requires last { link_of self.old.after.items last ≡ None }
        ensures times { self.new.times.items ≡ slice_set self.old.times.items leaf (Some at) }
        ensures linked { AreLinked self.new None }
    {
        self.times[leaf as usize] = MaybeTime::some(at);
        self.before[leaf as usize] = MaybeNumber::some(last);
        self.after[last as usize] = MaybeNumber::some(leaf);
    }

    /// The leaf waits no more.
    #[inline(always)]
    pub fn leave(&mut self, leaf: u32)
        requires linked { AreLinked self.old None }
        requires within { leaf < length self.old.times.items }
        ensures times { self.new.times.items ≡ slice_set self.old.times.items leaf None }
        ensures linked { AreLinked self.new None }
    {
        let Some(at) = self.times[leaf as usize].get() else {
            return;
        };
        self.leave_list(leaf, at);
    }

    // A leaf that waits leaves its list. Mostly none waits any more, so this is no part of `leave`.
    #[inline(never)]
    fn leave_list(&mut self, leaf: u32, at: Time)
        requires linked { AreLinked self.old None }
        requires within { leaf < length self.old.times.items }
        requires waits { waiting_time self.old.times.items leaf ≡ Some at }
        ensures times { self.new.times.items ≡ slice_set self.old.times.items leaf None }
        ensures linked { AreLinked self.new None }
    {
        match self.before[leaf as usize].get() {
            Some(before) => self.unlink(before, leaf),
            None => self.leave_first(leaf, at),
        }
    }

    // The first leaf of a list leaves it.
    fn leave_first(&mut self, leaf: u32, at: Time)
        requires linked { AreLinked self.old None }
        requires waits { waiting_time self.old.times.items leaf ≡ Some at }
        requires first { link_of self.old.before.items leaf ≡ None }
        ensures times { self.new.times.items ≡ slice_set self.old.times.items leaf None }
        ensures linked { AreLinked self.new None }
    {
        self.firsts.clear(leaf);
        if let Some(next) = self.release(leaf) {
            self.firsts.set(next, at);
        }
    }

    /// A leaf that is the first of a list, but not in the heap, waits no more. Gives the next one,
    /// which is so now.
    pub fn release(&mut self, leaf: u32) -> Option<u32>
        requires linked { AreLinked self.old (Some leaf) }
        ensures times { self.new.times.items ≡ slice_set self.old.times.items leaf None }
        ensures next { result ≡ link_of self.old.after.items leaf }
        ensures firsts { self.new.firsts ≡ self.old.firsts }
        ensures linked { AreLinked self.new result }
    {
        self.times[leaf as usize] = MaybeTime::none();
        let Some(next) = self.after[leaf as usize].get() else {
            return None;
        };
        self.after[leaf as usize] = MaybeNumber::none();
        self.before[next as usize] = MaybeNumber::none();
        Some(next)
    }

    // A leaf behind another one leaves the list.
    fn unlink(&mut self, before: u32, leaf: u32)
        requires linked { AreLinked self.old None }
        requires behind { link_of self.old.before.items leaf ≡ Some before }
        ensures times { self.new.times.items ≡ slice_set self.old.times.items leaf None }
        ensures linked { AreLinked self.new None }
    {
        self.times[leaf as usize] = MaybeTime::none();
        self.before[leaf as usize] = MaybeNumber::none();
        let Some(next) = self.after[leaf as usize].get() else {
            self.after[before as usize] = MaybeNumber::none();
            return;
        };
        self.after[leaf as usize] = MaybeNumber::none();
        self.after[before as usize] = MaybeNumber::some(next);
        self.before[next as usize] = MaybeNumber::some(before);
    }

    /// Whether this leaf waits for this time, and stands last in its list.
    pub fn ends_at(&self, last: u32, at: Time) -> bool
        requires { AreLinked self.now None }
        ensures waits { result ≡ true → waiting_time self.now.times.items last ≡ Some at }
        ensures last { result ≡ true → link_of self.now.after.items last ≡ None }
    {
        let last = last as usize;
        if last >= self.times.len() {
            return false;
        }
        if self.times[last].get() != Some(at) {
            return false;
        }
        self.after[last].get().is_none()
    }

    /// Appends the leaves that wait for this time, and they wait no more.
    pub fn take_lists(&mut self, at: Time, into: &mut Vec<u32>)
        requires linked { AreLinked self.old None }
        requires early { NoneBefore at self.old.times.items }
        requires room { vec_len into.old + length (leaves_at at self.old.times.items)
            ≤ vec_capacity into.old }
        ensures linked { AreLinked self.new None }
        ensures taken { TakesMore at self.old.times.items self.new.times.items into.old.items
            into.new.items }
        ensures none { NoneAt at self.new.times.items }
        ensures capacity { vec_capacity into.new ≡ vec_capacity into.old }
    {
        while let Some(first) = self.firsts.first() {
            if first.at != at {
                return;
            }
            self.take_list(first.leaf, at, into);
        }
    }

    // Appends the leaves of a list.
    fn take_list(&mut self, first: u32, at: Time, into: &mut Vec<u32>)
        requires linked { AreLinked self.old None }
        requires first { waiting_time self.old.firsts first ≡ Some at }
        requires room { vec_len into.old + length (leaves_at at self.old.times.items)
            ≤ vec_capacity into.old }
        ensures linked { AreLinked self.new None }
        ensures taken { TakesMore at self.old.times.items self.new.times.items into.old.items
            into.new.items }
        ensures fewer { length (leaves_at at self.new.times.items)
            < length (leaves_at at self.old.times.items) }
        ensures capacity { vec_capacity into.new ≡ vec_capacity into.old }
    {
        self.firsts.clear(first);
        let mut next = self.take_loose(first, at, into);
        while let Some(leaf) = next {
            next = self.take_loose(leaf, at, into);
        }
    }

    // Appends a loose leaf, which waits no more. Gives the next one, which is loose now.
    fn take_loose(&mut self, leaf: u32, at: Time, into: &mut Vec<u32>) -> Option<u32>
        requires linked { AreLinked self.old (Some leaf) }
        requires waits { waiting_time self.old.times.items leaf ≡ Some at }
        requires room { vec_len into.old + length (leaves_at at self.old.times.items)
            ≤ vec_capacity into.old }
        ensures linked { AreLinked self.new result }
        ensures taken { TakesMore at self.old.times.items self.new.times.items into.old.items
            into.new.items }
        ensures fewer { length (leaves_at at self.new.times.items)
            < length (leaves_at at self.old.times.items) }
        ensures waits { IfSome result (λ x. waiting_time self.new.times.items x ≡ Some at) }
        ensures capacity { vec_capacity into.new ≡ vec_capacity into.old }
    {
        into.push_reserved(leaf);
        self.release(leaf)
    }
}
