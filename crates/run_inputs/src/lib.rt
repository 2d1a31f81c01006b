//! What a run takes in beside its model, and what is told where there is nothing to start from.
//!
//! - `read_events` reads the events of a file; `read_text` reads a file to its text (`text`), for
//!   the events and for a state. `Unread` says why a run can't start, and `tell_unread` tells it
//!   (`tell`, with its lines in `lines`).
//! - Definitions: `specs/Read.antt`, `Unread.antt`. The run itself is `asked_run`.
#![tactic(auto)]

pub mod events;
mod lines;
pub mod tell;
pub mod text;
pub mod unread;

pub use events::read_events;
pub use tell::tell_unread;
pub use unread::Unread;
