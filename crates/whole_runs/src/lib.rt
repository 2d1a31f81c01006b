//! Tests of whole runs of both programs over a room in memory: words and files in, and what is
//! answered to them, byte for byte; and of runs that stop, for models that are refused, or where a
//! call fails or a file is cut short.
//!
//! - `rows` runs rows of words, files and answers: of `cdpp` in `tables` and, with further keys, in
//!   `forms`; of `drawlog` in `drawings`. The models are in `models`.
//! - `limits` runs models of the greatest size and such as are larger, a blinker in a large quiet
//!   space, and files that are too long.
//! - `refusals` has each kind of refusal at least once, in small models, or as one other line in a
//!   model that runs; `refused_forms` has further models, and the ring with another line. The
//!   status is that of a refused model, and the line and the kind are told. The models are in
//!   `stopped_models`.
//! - `faults` has rows of runs with one call that fails, with the status, the line that is told and
//!   the beginning of the log that is left; a model and a log are cut at each byte.
//! - `order` lets each append fail in turn, and so shows the order in which the log, the output and
//!   the frames are written.
//! - Crates that are tried: `cdpp_top` and `drawlog_top`, by `run` of `memory_runs`.
#![tactic(auto)]

#[cfg(test)]
mod drawings;
#[cfg(test)]
mod faults;
#[cfg(test)]
mod forms;
#[cfg(test)]
mod limits;
#[cfg(test)]
mod models;
#[cfg(test)]
mod order;
#[cfg(test)]
mod refusals;
#[cfg(test)]
mod refused_forms;
#[cfg(test)]
mod rows;
#[cfg(test)]
mod stopped_models;
#[cfg(test)]
mod tables;
