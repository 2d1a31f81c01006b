//! Both programs over a room in memory, for the crates of tests of whole runs: `cdpp` has two boxes
//! of each class.
//!
//! - `run` takes a command line and a `MemoryRoom` with files, and gives the status; `put_files`
//!   puts files into the room.
//! - `models` has the models that several of these crates run: the `RING` with its log, and two
//!   generators with a queue (`SERVED`).
//! - On it stand `whole_runs` and `resumed_runs`; it stands on `cdpp_top` and `drawlog_top`.
#![tactic(auto)]

pub mod models;
mod runs;

pub use runs::{put_files, run};
