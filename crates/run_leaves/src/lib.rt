//! The leaves of a run: the cells of all groups and all boxes, each under its number in declared
//! order.
//!
//! - `FlatLeaves::new` takes a sound `Model` and the stock with its boxes; `emit_leaf` lets a due
//!   leaf give, `move_leaf` moves one, `start_time` tells when it waits at the start, `save_cell`,
//!   `save_box`, `put_cell` and `put_box` tell and set its state. `Watchers` tells who watches a
//!   leaf, by blocks of cells. They are the `Leaves` and the `Watched` of `cycle_steps`.
//! - The trait `Cycles` is a run by its next cycle, whichever way that is made; a call answers
//!   `Progress` (a cycle, or the run is done) or `Stop`. The runs stand in the crates above. They
//!   and their leaves are let go by a call (the trait `Leave`).
//! - Definitions: `specs/Seated.antt` (how the leaves of `run_model` are kept), `Moving.antt` (what
//!   calls change), `Watching.antt`; where a run stands and what a call of it does: `Standing.antt`,
//!   `Steps.antt`, `Marking.antt`. It rests on `CellStore` of `cell_engine` and on `Stock` of
//!   `atomic_face`.
#![tactic(auto)]

mod blocks;
mod boxes;
mod cells;
pub mod cycles;
pub mod leave;
pub mod leaves;
mod names;
pub mod progress;
mod repeats;
mod seats;
mod start;
mod stretches;
pub mod watchers;

pub use cycles::Cycles;
pub use leave::Leave;
pub use leaves::FlatLeaves;
pub use progress::Progress;
pub use watchers::Watchers;
