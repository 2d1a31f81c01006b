//! The class `table` of atomic models, whose states and moves stand in the model file: each state
//! is held for its time, gives a value and leads on, and values at its ports lead from state to
//! state.
//!
//! - `TableModel` implements the trait `AtomicModel` of `atomic_face`; `new` makes a table of one
//!   state. Parameters are read (`read`) to `TableSettings`: a `Hold` for states that end, and
//!   `Take`s for values that lead on. `moves` has the moves.
//! - Definitions: `atomic_face/specs/TableSettings.antt` and `StateTable.antt`; the specs here say
//!   what the fields of these types stand for.
#![tactic(auto)]

mod moves;
mod read;
pub mod settings;
mod table;

pub use settings::{Hold, Shown, TableSettings, Take, Wanted};
pub use table::TableModel;
