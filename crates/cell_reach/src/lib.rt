//! Neighbours and watchers of the cells of a group by fixed differences: away from the edges a
//! neighbour's number is the cell's and a difference that is worked out once for each offset.
//!
//! - `Reach::new` takes a `Grid` and offsets; then `neighbours` and `watchers` answer for a cell,
//!   and `differences_at` gives the fixed differences at a place from which no offset leads past an
//!   edge. Below it: `Strides`, the same for any steps (`strides`), and where none passes an edge
//!   (`inner`).
//! - Definitions: `specs/Neighbourhoods.antt`, over `cell_grid/specs/Space.antt`.
//! - Laws (`laws`): an offset that passes no edge leads equally far from everywhere; lists of
//!   watchers have the members of that of `cell_grid`.
#![tactic(auto)]

mod inner;
pub mod laws;
pub mod reach;
mod strides;

pub use reach::Reach;
