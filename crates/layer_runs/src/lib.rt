//! Tests of single layers of a run, call by call, at values worked out by hand and with enough
//! memory.
//!
//! - The routes of a model in which two generators feed a queue (`routes`); the run of a ring of
//!   three cells, cycle by cycle, with what each call answers and records (`cycles`).
//! - The store of a group's cells: a cell takes a value and gives it, a cell is given a state, a
//!   cell has a variable (`stores`). The groups are those of models that `model_read` reads.
//! - The frame of one instant is drawn, and wide values stay whole (`frames`). Frames of whole runs
//!   and logs are drawn in `whole_runs`.
//! - Crates that are tried: `route_flat`, `flat_run` over `LinkedQueue`, `cell_engine`,
//!   `frame_draw`.
#![tactic(auto)]

#[cfg(test)]
mod cycles;
#[cfg(test)]
mod frames;
#[cfg(test)]
mod routes;
#[cfg(test)]
mod stores;
