//! Files of events: each line is a time, an input of top and a value.
//!
//! - `Events::read` takes the bytes of a file and the names of the inputs, and gives the events by
//!   rising time, those of one time in the order of the file; or `EventRefusal`, the first line
//!   that is refused. `next`, `take` and `skip` then hand them out, one time after another.
//! - Definitions: `specs/Events.antt` (`events_of`, `file_refused`).
//! - Laws (`laws`): computed examples.
#![tactic(auto)]

mod event;
pub mod laws;
mod line;
pub mod list;
mod read;
pub mod refusal;

pub use list::Events;
pub use refusal::EventRefusal;
