// The leaves of one time are taken out of a queue that shows a leaf of the least time.
ghost use Rattle.std.specs.Prelude.{◌≡◌, ℕ, ◌+◌, ◌<◌, ◌≤◌, [], ◌∷◌, ◌++◌, false, Option, List, length, IfSome, IfNone, slice_set, if◌then◌else◌, vec_len};
ghost use Rattle.std.specs.List.{sum_by};
ghost use Rattle.std.specs.List.Sorted.{IsNonDecreasing};
ghost use Rattle.std.specs.Vec.{vec_capacity};
ghost use Rattle.time_queue.specs.Waiting.{waiting_time, least_time, is_due, undue, leaves_at, without, NoneBefore};
ghost use Rattle.time_queue.specs.Taking.{NoneAt, TakesMore};

use crate::entry::Entry;
use quantity::Time;

/// A queue that shows a leaf of the least time.
pub trait DueFirst {
    /// For each leaf, by its number, the time that it waits for, or none.
    ghost waiting: { Self → List (Option ℕ) };

    /// How many leaves there are.
    fn leaves(&self) -> u32
        ensures { result ≡ length (waiting self.now) };

    /// The time that a leaf waits for.
    fn time_of(&self, leaf: u32) -> Option<Time>
        requires { leaf < length (waiting self.now) }
        ensures { result ≡ waiting_time (waiting self.now) leaf };

    /// A leaf of the least time, with that time.
    fn first(&self) -> Option<Entry>
        ensures none { IfNone result (least_time (waiting self.now) ≡ None) }
        ensures within { IfSome result (λ e. e.leaf < length (waiting self.now)) }
        ensures waits { IfSome result (λ e. waiting_time (waiting self.now) e.leaf ≡ Some e.at) }
        ensures least { IfSome result (λ e. least_time (waiting self.now) ≡ Some e.at) };

    /// The leaf waits for no time.
    fn remove(&mut self, leaf: u32)
        requires { leaf < length (waiting self.old) }
        ensures { waiting self.new ≡ slice_set (waiting self.old) leaf None };
}

/// What `TimeQueue::take_all_at` says.
pub fn take_due<Q: DueFirst>(queue: &mut Q, at: Time, into: &mut Vec<u32>)
    requires empty { into.old.items ≡ [] }
    requires room { length (Q.waiting queue.old) ≤ vec_capacity into.old }
    ensures taken { into.new.items ≡ leaves_at at (Q.waiting queue.old) }
    ensures left { Q.waiting queue.new ≡ without at (Q.waiting queue.old) }
    ensures capacity { vec_capacity into.new ≡ vec_capacity into.old }
{
    if some_before(queue, at) {
        take_scattered(queue, at, into);
        return;
    }
    take_leading(queue, at, into);
    sort(into);
}

/// Whether a leaf waits for an earlier time.
pub(crate) fn some_before<Q: DueFirst>(queue: &Q, at: Time) -> bool
    ensures { result ≡ false → NoneBefore at (Q.waiting queue.now) }
{
    match queue.first() {
        Some(first) => first.at < at,
        None => false,
    }
}

/// Appends the leaves at the front, while they wait for this time, in any order.
pub(crate) fn take_leading<Q: DueFirst>(queue: &mut Q, at: Time, into: &mut Vec<u32>)
    requires early { NoneBefore at (Q.waiting queue.old) }
    requires room { vec_len into.old + length (leaves_at at (Q.waiting queue.old))
        ≤ vec_capacity into.old }
    ensures taken { TakesMore at (Q.waiting queue.old) (Q.waiting queue.new)
        into.old.items into.new.items }
    ensures none { NoneAt at (Q.waiting queue.new) }
    ensures capacity { vec_capacity into.new ≡ vec_capacity into.old }
{
    while let Some(first) = queue.first() {
        if first.at != at {
            return;
        }
        queue.remove(first.leaf);
        into.push_reserved(first.leaf);
    }
}

/// What `TimeQueue::take_all_at` says. All leaves are gone through, since they stand anywhere
/// behind those of earlier times.
pub(crate) fn take_scattered<Q: DueFirst>(queue: &mut Q, at: Time, into: &mut Vec<u32>)
    requires empty { into.old.items ≡ [] }
    requires room { length (Q.waiting queue.old) ≤ vec_capacity into.old }
    ensures taken { into.new.items ≡ leaves_at at (Q.waiting queue.old) }
    ensures left { Q.waiting queue.new ≡ without at (Q.waiting queue.old) }
    ensures capacity { vec_capacity into.new ≡ vec_capacity into.old }
{
    for leaf in 0..queue.leaves() {
        take_if_due(queue, at, leaf, into);
    }
}

fn take_if_due<Q: DueFirst>(queue: &mut Q, at: Time, leaf: u32, into: &mut Vec<u32>)
    requires within { leaf < length (Q.waiting queue.old) }
    requires room { vec_len into.old < vec_capacity into.old }
    ensures taken { into.new.items
        ≡ into.old.items
        ++ (if is_due at (waiting_time (Q.waiting queue.old) leaf) then leaf ∷ [] else []) }
    ensures left { Q.waiting queue.new
        ≡ slice_set (Q.waiting queue.old) leaf
        (undue at (waiting_time (Q.waiting queue.old) leaf)) }
    ensures capacity { vec_capacity into.new ≡ vec_capacity into.old }
{
    if is_for(queue.time_of(leaf), at) {
        queue.remove(leaf);
        into.push_reserved(leaf);
    }
}

/// Whether a leaf waits for this time, by the time that it waits for.
fn is_for(time: Option<Time>, at: Time) -> bool
    ensures { result ≡ is_due at time }
{
    match time {
        Some(time) => time == at,
        None => false,
    }
}

/// Puts numbers into rising order. Those that rise already are only looked at.
pub fn sort(numbers: &mut Vec<u32>)
    ensures rising { IsNonDecreasing numbers.new.items }
    ensures same { (f : ℕ → ℕ) → sum_by f numbers.new.items ≡ sum_by f numbers.old.items }
    ensures capacity { vec_capacity numbers.new ≡ vec_capacity numbers.old }
{
    if numbers.is_sorted() {
        return;
    }
    numbers.sort_unstable();
}
