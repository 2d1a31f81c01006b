// The queue whose leaves stand in a heap.
ghost use Rattle.std.specs.Prelude.{◌≡◌, ℕ, ◌+◌, ◌*◌, ◌<◌, ◌≤◌, [], Option, List, length, replicate, IfOk, IfSome, IfNone, slice_set, slice_index, is_some, true};
ghost use Rattle.std.specs.Vec.{vec_capacity};
ghost use Rattle.time_queue.specs.Waiting.{waiting_time};
ghost use Rattle.time_queue.specs.Taking.{TakesMore};
ghost use Rattle.time_queue.specs.Heap.{time_at, IsHeap, IsHeapBut, IsBelow, AreFirst, IsRanked, AreAt};

use crate::due::{DueFirst, some_before, sort, take_leading, take_scattered};
use crate::entry::Entry;
use crate::queue::TimeQueue;
use crate::ranks::Ranks;
use quantity::{MaybeTime, OutOfMemory, Time};
use std::alloc::Global;
use std::marker::Model;

/// Next times as a binary heap of the leaves that wait, with the place of each leaf in it. The
/// leaves that don't wait stand behind the heap.
#[derive(Drop)]
pub struct HeapQueue {
    times: Vec<MaybeTime>,
    ranks: Ranks,
    waiting: usize,
}

impl Model for HeapQueue {
    ghost use Rattle.std.specs.Prelude.{ℕ, List, Option};

    ghost Value = { List (Option ℕ) };

    ghost use Rattle.time_queue.specs.Heap.{IsRanked};

    ghost view = { λ q. q.times.items };

    ghost invariant = { λ q. IsRanked q.times.items q.ranks.order.items q.waiting };
}

impl HeapQueue {
    /// A queue of so many leaves, of which none waits.
    pub fn with_leaves(alloc: Global, n: u32) -> Result<HeapQueue, OutOfMemory>
        ensures { IfOk result (λ q. q ≡ replicate n None) }
    {
        let times = vec![in alloc; MaybeTime::none(); n as usize]?;
        let ranks = Ranks::new(alloc, n)?;
        Ok(HeapQueue {
            times,
            ranks,
            waiting: 0,
        })
    }

    // Takes the leaves at the first places of the heap, as long as they wait for this time, in the
    // order of their places. The last of them leaves first, so that little stands below what comes
    // to its place, and nothing where no other leaf waits.
    fn take_front(&mut self, at: Time, into: &mut Vec<u32>)
        requires empty { into.old.items ≡ [] }
        requires room { length self.old ≤ vec_capacity into.old }
        ensures taken { TakesMore at self.old self.new into.old.items into.new.items }
        ensures capacity { vec_capacity into.new ≡ vec_capacity into.old }
    {
        copy_front(&self.times, &self.ranks, self.waiting, at, into);
        let mut left = into.len();
        while left > 0 {
            left -= 1;
            self.remove(into[left]);
        }
    }
}

impl TimeQueue for HeapQueue {
    ghost waiting = { λ q. q };

    fn set(&mut self, leaf: u32, at: Time) {
        self.waiting = enter(&mut self.times, &mut self.ranks, self.waiting, leaf, at);
    }

    fn clear(&mut self, leaf: u32) {
        self.waiting = leave(&mut self.times, &mut self.ranks, self.waiting, leaf);
    }

    fn least(&self) -> Option<Time> {
        let first = self.first()?;
        Some(first.at)
    }

    fn take_all_at(&mut self, at: Time, into: &mut Vec<u32>) {
        if some_before(self, at) {
            take_scattered(self, at, into);
            return;
        }
        self.take_front(at, into);
        take_leading(self, at, into);
        sort(into);
    }
}

impl DueFirst for HeapQueue {
    ghost waiting = { λ q. q };

    fn leaves(&self) -> u32 {
        self.times.len() as u32
    }

    fn time_of(&self, leaf: u32) -> Option<Time> {
        self.times[leaf as usize].get()
    }

    fn first(&self) -> Option<Entry> {
        if self.waiting == 0 {
            return None;
        }
        let at = time_at(&self.times, &self.ranks, 0);
        let leaf = self.ranks.order[0];
        Some(Entry { at, leaf })
    }

    fn remove(&mut self, leaf: u32) {
        self.waiting = leave(&mut self.times, &mut self.ranks, self.waiting, leaf);
    }
}

// Appends the leaves at the first places, as long as they wait for this time.
fn copy_front(times: &[MaybeTime], ranks: &Ranks, waiting: usize, at: Time, into: &mut Vec<u32>)
    requires ranked { IsRanked times.now ranks.now.order.items waiting }
    requires empty { into.old.items ≡ [] }
    requires room { waiting ≤ vec_capacity into.old }
    ensures front { AreAt at times.now into.new.items }
    ensures capacity { vec_capacity into.new ≡ vec_capacity into.old }
{
    for place in 0..waiting {
        let leaf = ranks.order[place];
        if times[leaf as usize].get() != Some(at) {
            return;
        }
        into.push_reserved(leaf);
    }
}

// The leaf waits for this time. Says how many leaves wait then.
fn enter(
    times: &mut Vec<MaybeTime>,
    ranks: &mut Ranks,
    waiting: usize,
    leaf: u32,
    at: Time,
) -> usize
    requires ranked { IsRanked times.old.items ranks.old.order.items waiting }
    requires within { leaf < length times.old.items }
    ensures times { times.new.items ≡ slice_set times.old.items leaf (Some at) }
    ensures ranked { IsRanked times.new.items ranks.new.order.items result }
{
    let place = ranks.places[leaf as usize];
    let place = place as usize;
    if place < waiting {
        times[leaf as usize] = MaybeTime::some(at);
        settle(times, ranks, waiting, place);
        return waiting;
    }
    ranks.swap(place, waiting);
    times[leaf as usize] = MaybeTime::some(at);
    settle(times, ranks, waiting + 1, waiting);
    waiting + 1
}

// The leaf waits no more. Says how many leaves wait then.
fn leave(times: &mut Vec<MaybeTime>, ranks: &mut Ranks, waiting: usize, leaf: u32) -> usize
    requires ranked { IsRanked times.old.items ranks.old.order.items waiting }
    requires within { leaf < length times.old.items }
    ensures times { times.new.items ≡ slice_set times.old.items leaf None }
    ensures ranked { IsRanked times.new.items ranks.new.order.items result }
{
    let place = ranks.places[leaf as usize];
    let place = place as usize;
    if place >= waiting {
        return waiting;
    }
    let last = waiting - 1;
    if place == last {
        times[leaf as usize] = MaybeTime::none();
        return last;
    }
    ranks.swap(place, last);
    times[leaf as usize] = MaybeTime::none();
    settle(times, ranks, last, place);
    last
}

// What stands at the place moves up or down, until all is in order.
fn settle(times: &[MaybeTime], ranks: &mut Ranks, waiting: usize, place: usize)
    requires within { place < waiting }
    requires all { waiting ≤ length ranks.old.order.items }
    requires first { AreFirst times.now ranks.old.order.items waiting }
    requires heap { IsHeapBut waiting (time_at times.now ranks.old.order.items) place }
    ensures same { length ranks.new.order.items ≡ length ranks.old.order.items }
    ensures first { AreFirst times.now ranks.new.order.items waiting }
    ensures heap { IsHeap waiting (time_at times.now ranks.new.order.items) }
{
    let place = sift_up(times, ranks, waiting, place);
    sift_down(times, ranks, waiting, place);
}

// While what stands at the place is before what stands above it, they change places.
fn sift_up(times: &[MaybeTime], ranks: &mut Ranks, waiting: usize, mut place: usize) -> usize
    requires within { place < waiting }
    requires all { waiting ≤ length ranks.old.order.items }
    requires first { AreFirst times.now ranks.old.order.items waiting }
    requires heap { IsHeapBut waiting (time_at times.now ranks.old.order.items) place }
    ensures within { result < waiting }
    ensures same { length ranks.new.order.items ≡ length ranks.old.order.items }
    ensures first { AreFirst times.now ranks.new.order.items waiting }
    ensures heap { IsHeapBut waiting (time_at times.now ranks.new.order.items) result }
    ensures below { IsBelow (time_at times.now ranks.new.order.items) result }
{
    while place > 0 {
        let above = (place - 1) / 2;
        if time_at(times, ranks, above) <= time_at(times, ranks, place) {
            return place;
        }
        ranks.swap(place, above);
        place = above;
    }
    place
}

// While something below is before what stands at the place, the least of these changes places with
// it.
fn sift_down(times: &[MaybeTime], ranks: &mut Ranks, waiting: usize, mut place: usize)
    requires within { place < waiting }
    requires all { waiting ≤ length ranks.old.order.items }
    requires first { AreFirst times.now ranks.old.order.items waiting }
    requires heap { IsHeapBut waiting (time_at times.now ranks.old.order.items) place }
    requires below { IsBelow (time_at times.now ranks.old.order.items) place }
    ensures same { length ranks.new.order.items ≡ length ranks.old.order.items }
    ensures first { AreFirst times.now ranks.new.order.items waiting }
    ensures heap { IsHeap waiting (time_at times.now ranks.new.order.items) }
{
    while let Some(child) = child_before(times, ranks, waiting, place) {
        ranks.swap(place, child);
        place = child;
    }
}

// The place below that is before this one, and not after the other one below.
fn child_before(times: &[MaybeTime], ranks: &Ranks, waiting: usize, place: usize) -> Option<usize>
    requires within { place < waiting }
    requires all { waiting ≤ length ranks.now.order.items }
    requires first { AreFirst times.now ranks.now.order.items waiting }
    ensures none { IfNone result
        ((k : ℕ) → 2 * place < k → k ≤ 2 * place + 2 → k < waiting
        → time_at times.now ranks.now.order.items place
        ≤ time_at times.now ranks.now.order.items k) }
    ensures child { IfSome result (λ c. (2 * place < c) × (c ≤ 2 * place + 2) × (c < waiting)) }
    ensures before { IfSome result
        (λ c. time_at times.now ranks.now.order.items c
        < time_at times.now ranks.now.order.items place) }
    ensures least { IfSome result
        (λ c. (k : ℕ) → 2 * place < k → k ≤ 2 * place + 2 → k < waiting
        → time_at times.now ranks.now.order.items c ≤ time_at times.now ranks.now.order.items k) }
{
    let child = least_child(times, ranks, waiting, place)?;
    if time_at(times, ranks, child) < time_at(times, ranks, place) {
        return Some(child);
    }
    None
}

// The place below that is not after the other one below.
fn least_child(times: &[MaybeTime], ranks: &Ranks, waiting: usize, place: usize) -> Option<usize>
    requires within { place < waiting }
    requires all { waiting ≤ length ranks.now.order.items }
    requires first { AreFirst times.now ranks.now.order.items waiting }
    ensures none { IfNone result (waiting ≤ 2 * place + 1) }
    ensures child { IfSome result (λ c. (2 * place < c) × (c ≤ 2 * place + 2) × (c < waiting)) }
    ensures least { IfSome result
        (λ c. (k : ℕ) → 2 * place < k → k ≤ 2 * place + 2 → k < waiting
        → time_at times.now ranks.now.order.items c ≤ time_at times.now ranks.now.order.items k) }
{
    let left = 2 * place + 1;
    if left >= waiting {
        return None;
    }
    let right = left + 1;
    if right < waiting && time_at(times, ranks, right) < time_at(times, ranks, left) {
        return Some(right);
    }
    Some(left)
}

// The time of the leaf at a place of the heap.
fn time_at(times: &[MaybeTime], ranks: &Ranks, place: usize) -> Time
    requires within { place < length ranks.now.order.items }
    requires waits { is_some (waiting_time times.now (slice_index ranks.now.order.items place))
        ≡ true }
    ensures { result ≡ time_at times.now ranks.now.order.items place }
{
    match times[ranks.order[place] as usize].get() {
        Some(at) => at,
        None => unreachable!(),
    }
}
