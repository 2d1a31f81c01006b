//! The text of the state of a run: written at its end, and read so that another run goes on from
//! it; and its lines, each of which is written, and read again.
//!
//! - `save_state` takes a run and a time and appends the text, leaf after leaf. `load_state` takes
//!   the bytes of such a text, a run before its first cycle and its end, and gives the run in that
//!   state and the state's time; or `StateRefusal` of `text_forms`, the first line that is refused.
//! - `put_cell` and `put_box` append the line of a leaf (`leaf_line`). Inside, `cell_in_line` and
//!   `numbers_in_line` take a line, and give the state that it is the line of, or none: what was
//!   read is written again and compared (`compare`). `time_line`, `behind_line` and `end_refused`
//!   (`parts`) read the lines of no leaf. `cell_sizes` tells how many ports and variables the cells
//!   of each group have (`CellSize`).
//! - Definitions: `text_forms/specs/StateText.antt` (`text_of_state`) and `StateOf.antt`
//!   (`state_of`); beside them `specs/LeafLines.antt` and `Sizes.antt`; what reading makes of a
//!   run: `specs/Loads.antt`.
//! - Laws (`laws`): the states that a text gives fit the leaves of the model.
#![tactic(auto)]

pub mod laws;
mod leaf;
pub mod load;
pub mod save;

pub use load::load_state;
pub use save::save_state;
