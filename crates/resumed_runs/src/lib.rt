//! Tests of whole runs of `cdpp` that save their state or go on from one, or are served message by
//! message, over a room in memory.
//!
//! - `rows` has runs that save, that go on, and states that are refused; `halves` has runs in two
//!   halves, whose files, one behind the other, are those of one run; `refusals` has words that are
//!   refused.
//! - `faults` has runs with one call that fails, and a state that is cut at each byte. What is
//!   saved stands in `saved_models`; the law is `answers_join` of `saved_runs`.
//! - `orders`: models run without a seed and in the orders of two, with the same files, status and
//!   complaint; what is answered is what is answered without one, but for the mark of the order.
//!   The marks were worked out from the rules of service. `seeds`: seeds that are taken, with the
//!   mark that is shown, and words that are refused. What is served stands in `served_models`.
//! - The crate that is tried: `cdpp_top`, by `run` of `memory_runs`.
#![tactic(auto)]

#[cfg(test)]
mod faults;
#[cfg(test)]
mod halves;
#[cfg(test)]
mod orders;
#[cfg(test)]
mod refusals;
#[cfg(test)]
mod rows;
#[cfg(test)]
mod saved_models;
#[cfg(test)]
mod seeds;
#[cfg(test)]
mod served_models;
