//! Next times: for each leaf the time that it waits for, or none, and which leaves are due first.
//!
//! - The trait `TimeQueue`: `set`, `clear`, the `least` time, and `take_all_at`, which gives the
//!   leaves of one time, rising. No call takes memory.
//! - Three queues: `LinkedQueue`, on which the simulator runs: the leaves of one time stand in a
//!   list (`lists`), and only the first leaf of each list in a heap; `SortedQueue`, in order of
//!   time, and `HeapQueue`, a binary heap. `with_leaves` makes one in which none waits. `replay`
//!   leads any queue through `Move`s, and tells what it answers (`Reply`).
//! - Definitions: `specs/Waiting.antt` (`leaves_at`, `without`, `least_of`); `Replay.antt`; how the
//!   lists lie is in `specs/Lists.antt`, which no public clause cites.
#![tactic(auto)]

pub mod due;
pub mod entry;
mod heap;
mod linked;
mod lists;
mod moves;
mod queue;
mod ranks;
mod sorted;

pub use heap::HeapQueue;
pub use linked::LinkedQueue;
pub use moves::{Move, Reply, replay};
pub use queue::TimeQueue;
pub use sorted::SortedQueue;
