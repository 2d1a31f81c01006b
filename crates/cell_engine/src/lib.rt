//! The cells of a group with its rules: what a cell gives, and what one step makes of it.
//!
//! - `CellStore::new` takes a sound `CellGroup` and makes its cells at their start. `emit` lets a
//!   cell that is due give (`Given`); `compute` moves a cell by its bag of inputs, and by its rules
//!   where it is woken, or says by `LeafStop` why it stops; `computed`, `cell`, `state` and `put`
//!   tell and set.
//! - While cells give, a store keeps for each cell how many neighbours show 1, 0 and `?`
//!   (`tallies`), where rules count them.
//! - `Steps` counts visits: calls that ask or move a cell.
//! - Definitions: `run_model/specs/CellStep.antt`; the calls: `specs/Cells.antt` (`Computes`),
//!   `Layout.antt`. It rests on `rule_eval`, `cell_reach` and `cell_table`.
//! - Laws (`laws`): what a cell sees of its own group is what it sees of all leaves.
#![tactic(auto)]

mod bag;
pub mod computed;
mod counting;
mod desk;
pub mod laws;
mod make;
mod memo;
mod plan;
mod set_numbers;
mod sight;
mod step;
mod steps;
pub mod store;
mod tallies;
mod work;

pub use cell_table::{Cell, CellState, PortState};
pub use computed::Computed;
pub use rule_eval::Given;
pub use steps::Steps;
pub use store::CellStore;
