//! The simulator, over any room and any boxes: words and files in, a run with its files and lines
//! out.
//!
//! - `cdpp` takes the words of a command line, the boxes for atomic components, a room and a
//!   counter of visits, and answers the `Status`; its contract is what is proved of the program as
//!   a whole. `cdpp_surely` is the same over a room that never fails.
//! - It reads all that there is to read (`read`), and has it run, or told why there is nothing to run
//!   (`asked_run`).
//! - Definitions: `answer_model/specs/Cdpp.antt` (the answer), `Programs.antt` (`CdppEnds`,
//!   `CdppCauses`), `Visits.antt` there; the stages on the way: `specs/Stages.antt`.
//! - Laws (`laws`): frames drawn from the log are those of the run; only runs leave files. It rests
//!   on `model_read` and `asked_run`. The process is `cdpp_cli`.
#![tactic(auto)]

pub mod laws;
mod program;
mod read;
mod sure;

pub use program::cdpp;
pub use sure::cdpp_surely;
