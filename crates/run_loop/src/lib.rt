//! The program after its inputs are read: files are made, the run goes on cycle after cycle, its
//! state is saved where that is asked for, and its end is told.
//!
//! - `run_and_tell` takes a room, what is asked, the group that is drawn, a run before its first
//!   cycle (`Cycles` of `run_leaves`) and what tells of its state (`StateTeller`), and answers the
//!   `Status`. Its stages: `begin`, `shown` (what frames show of a state that was read), `run`,
//!   `saved`, `ending`. It knows neither kind of run: both stand in crates of their own beside it.
//! - The files of a run grow cycle by cycle: its log, its output, its frames, and the state at its
//!   end. Inside, `create_files` makes those that are asked for; `write_cycle` takes the records of
//!   a cycle and adds a frame and lines, `write_last` the last frame, `write_piece` any piece
//!   (`Output` says to which file). `Unwritten` says why something was not written,
//!   `tell_unwritten` tells it. `drawn_at_start` makes the frames of the drawn group (`Drawn`);
//!   `Counted` counts for the last line of a made model.
//! - Definitions: `answer_model/specs/RunFiles.antt` and `RunEnd.antt`; what each call adds to
//!   files, and in which order: `specs/Texts.antt`, `Showing.antt`, `Order.antt`, `Pieces.antt`;
//!   what a run comes to and what it leaves: `specs/Ran.antt`, `Leaves.antt`, `Emitted.antt`,
//!   `Saving.antt`, `Answers.antt`.
//! - Laws (`laws`): a run that may start has a verdict, and its cycles fit the model. It rests on
//!   `run_leaves`, `text_forms` and `frame_draw`.
#![tactic(auto)]

mod begin;
mod counted;
mod create;
mod cycle;
mod drawn;
mod ending;
mod going;
pub mod laws;
mod lines;
mod log;
mod outputs;
mod run;
mod saved;
mod shown;
mod stage;
mod start;
mod tell;
pub mod teller;
mod write;

pub use counted::{Counted, count};
pub use cycle::write_last;
pub use drawn::Drawn;
pub use outputs::{Output, Unwritten};
pub use stage::run_and_tell;
pub use teller::StateTeller;
