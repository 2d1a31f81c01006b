// For which time a leaf waits in the queue.
ghost use Rattle.std.specs.Prelude.{◌≡◌, ◌<◌, length, slice_set};

use quantity::Time;
use time_queue::TimeQueue;

/// A leaf waits for its next time, or for none.
#[inline(always)]
pub fn set_next<Q: TimeQueue>(queue: &mut Q, leaf: u32, next: Option<Time>)
    requires { leaf < length (Q.waiting queue.old) }
    ensures { Q.waiting queue.new ≡ slice_set (Q.waiting queue.old) leaf next }
{
    match next {
        Some(at) => queue.set(leaf, at),
        None => queue.clear(leaf),
    }
}
