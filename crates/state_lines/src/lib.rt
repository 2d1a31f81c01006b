//! The lines of a saved state: each is written, and read again.
//!
//! - `put_cell` and `put_box` append the line of a leaf (`leaf_line`); `words` has what their words
//!   are made of. `cell_in_line` and `numbers_in_line` take a line, and give the state that it is
//!   the line of, or none: what was read is written again and compared (`compare`, over `read` and
//!   `literal`). `time_line`, `behind_line` and `end_refused` (`parts`) read the lines of no leaf.
//! - Definitions: `text_forms/specs/StateText.antt` (`text_of_state`) and `StateOf.antt`
//!   (`state_of`); beside them `specs/LeafLines.antt`. The whole text is written and read in
//!   `state_file`.
#![tactic(auto)]

pub mod compare;
pub mod leaf_line;
mod literal;
pub mod parts;
mod read;
pub mod sizes;
mod words;

pub use leaf_line::{put_box, put_cell};
pub use parts::time_line;
