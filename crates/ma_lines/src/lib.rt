//! A model file as sections with their entries: `[name]`, and then lines `key : value`, of which
//! one goes on over further lines as long as its braces are open.
//!
//! - `Lines::read` takes the bytes of a file and gives its `Sections`, in their order, each a
//!   `Section` of `Entry`s with the numbers of their lines; or `LineRefusal`, the first line that
//!   is refused, and why. What names, keys and values mean isn't looked at: that begins in
//!   `model_walk`.
//! - Definitions: `specs/Sections.antt` (`sections_of`), over `Entries.antt`; the same taken line
//!   by line, as the code goes: `Reading.antt`.
//! - Laws (`laws`, `specs/Laws.antt`): comments, carriage returns, outer blanks and empty lines
//!   change no section; letters are folded; the numbers of lines rise. Examples of files that are
//!   read and refused.
#![tactic(auto)]

pub mod laws;
pub mod lines;
mod open_entry;
mod parts;
mod reader;
pub mod section;
pub mod sections;

pub use lines::Lines;
pub use section::{Entry, LineRefusal, Section};
pub use sections::Sections;
