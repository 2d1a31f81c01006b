//! One cycle as code, from the leaves that matter: who gives, who is woken, what paths bring, who
//! moves.
//!
//! - `cycle_at` (`cycle`) takes leaves, watchers, paths, a queue, and what the cycle works over
//!   (`Workspace`: the due leaves, the inputs of an instant), and makes the cycle with its records,
//!   or says by `Stop` why it broke off. Its parts: `collect`, `touch` (`wake`), `reach`, `feed`,
//!   `bag_at` (`bag`), `walk`.
//! - Over small traits, so that each part is proved alone: `Leaves` (asked and moved one at a
//!   time), `Watched` (who watches a leaf), beside `TimeQueue`, `LeafSet` and `Routing` (numbered
//!   paths, in `model_tree`; `Routes` of `route_flat` are such).
//! - Definitions: `sparse_cycle/specs/Sparse.antt`; what a cycle makes: `specs/Whole.antt`
//!   (`CyclesTo`). Its leaves are those of `run_leaves`.
#![tactic(auto)]

pub mod bag;
pub mod collect;
pub mod cycle;
pub mod feed;
pub mod half;
pub mod leaves;
pub mod reach;
mod room;
pub mod scratch;
pub mod told;
pub mod waiting;
pub mod wake;
pub mod walk;
pub mod workspace;
