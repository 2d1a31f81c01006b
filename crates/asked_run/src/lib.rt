//! The run that words ask for, from the model that was read on to its end.
//!
//! - What it starts with: `run_at_start` makes the run of a model, flat or with messages that are
//!   served in the order of a seed (`Way`), and `read_state` has it go on from a state that was
//!   saved.
//! - `run` (`run`) runs what is started (`Start`) and tells how that went. `release` lets go a
//!   model, its routes and its stock where no run is made of them.
//! - Definitions: the stages on the way, `specs/Stages.antt`, `Starting.antt`; what a run leaves,
//!   `Leaving.antt`.
//! - It rests on `run_inputs` for the files beside the model, on `run_loop`, the runs of both ways
//!   and the text of a state, and takes a model and its routes from whoever has read them. The
//!   program over it is `cdpp_top`.
#![tactic(auto)]

pub mod run;
mod start;
mod state;
mod teller;
mod way;

pub use start::{Start, release, run_at_start, runs_may_run};
pub use state::read_state;
pub use way::Way;
