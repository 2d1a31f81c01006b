// A queue of next times, seen through its calls.
ghost use Rattle.std.specs.Prelude.{◌≡◌, ℕ, ◌<◌, ◌≤◌, [], Option, List, length, slice_set};
ghost use Rattle.std.specs.Vec.{vec_capacity};
ghost use Rattle.time_queue.specs.Waiting.{least_time, leaves_at, without};

use quantity::Time;

/// The next time of each leaf, or none. How many leaves there are is said when a queue is made,
/// and no call changes it. No call takes memory.
pub trait TimeQueue: Drop {
    /// For each leaf, by its number, the time that it waits for, or none.
    ghost waiting: { Self → List (Option ℕ) };

    /// The leaf waits for this time, and for no other that was set before.
    fn set(&mut self, leaf: u32, at: Time)
        requires { leaf < length (waiting self.old) }
        ensures { waiting self.new ≡ slice_set (waiting self.old) leaf (Some at) };

    /// The leaf waits for no time.
    fn clear(&mut self, leaf: u32)
        requires { leaf < length (waiting self.old) }
        ensures { waiting self.new ≡ slice_set (waiting self.old) leaf None };

    /// The least time that a leaf waits for. None exactly where no leaf waits.
    fn least(&self) -> Option<Time>
        ensures { result ≡ least_time (waiting self.now) };

    /// Puts the leaves that wait for this time into an empty list, rising, and they wait no more.
    /// Leaves that wait for an earlier or a later time stay.
    fn take_all_at(&mut self, at: Time, into: &mut Vec<u32>)
        requires empty { into.old.items ≡ [] }
        requires room { length (waiting self.old) ≤ vec_capacity into.old }
        ensures taken { into.new.items ≡ leaves_at at (waiting self.old) }
        ensures left { waiting self.new ≡ without at (waiting self.old) }
        ensures capacity { vec_capacity into.new ≡ vec_capacity into.old };
}
