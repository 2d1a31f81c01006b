//! Frames: the values of one plane of a group of cells as a picture of text, one for each instant
//! at which something was shown.
//!
//! - `Frames::new` takes the space, the plane, the width of a value and its decimals; `take` a
//!   value that a cell gave at an instant, `preset` one that it had before; `finish` appends the
//!   frame of the instant that was begun.
//! - Definitions: `text_forms/specs/Frames.antt`; frames that are being drawn:
//!   `specs/Drawing.antt`, `Turns.antt`.
//! - Laws (`laws`): an instant is one frame; frames that are drawn in turn are all frames.
#![tactic(auto)]

mod frame;
pub mod frames;
mod kept;
mod known;
pub mod laws;
mod plane;
mod rows;

pub use frames::Frames;
