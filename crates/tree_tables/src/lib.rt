//! The processors of a model's tree in tables, made once, so that to serve a message no name is
//! looked up.
//!
//! - `tables_of` takes a `Model`, and gives an `Entry` for each processor: its parent, its
//!   children, its leaf, and for each of its ports where the links into it begin (`Ref`).
//! - Definitions: `specs/Stations.antt` (`stations`), over `served_tree/specs/Processors.antt` and
//!   `Rows.antt`. The children are found by `Children`, links by `Arrivals` of `port_net`.
//!   `tree_messages` takes them for a run that serves messages (`cdpp -T`).
#![tactic(auto)]

mod begins;
pub mod entry;
mod growing;
mod incoming;
mod sizes;
pub mod tables;
mod wiring;

pub use entry::{Entry, Ref};
pub use tables::tables_of;
