//! The cells of a group in flat lists: their emitted and computed values, what waits at their
//! ports, and their variables.
//!
//! - `CellTable::new` makes cells at their start; `emit` lets a cell give what is due, `take` puts
//!   given values into its delay lists, `next_of` answers its next time, `emitted` and `computed`
//!   its values. `Cell` is what is told of a cell; `state` and `put` tell and set its whole state
//!   (`CellState`, `PortState`).
//! - Definitions: `run_model/specs/CellStep.antt` says what a cell is; how cells lie in lists:
//!   `specs/Table.antt`, `Told.antt`. It rests on `delay_lines`.
#![tactic(auto)]

pub mod cell;
pub mod emit;
mod save;
pub mod state;
pub mod table;

pub use cell::Cell;
pub use state::{CellState, PortState};
pub use table::CellTable;
