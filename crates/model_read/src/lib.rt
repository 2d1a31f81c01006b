//! The whole reading of a model: from a file to a model that can be run, or exactly its first
//! refusal.
//!
//! - `read_model` takes a room, the name of a file, a stock of boxes and what is to be drawn, and
//!   gives `ReadModel`: the `Model`, its `Routes`, and the group that is drawn; or `ModelRefusal`:
//!   a missing file, a read fault, a refusal at a line, or want of memory. `read_model_bytes` takes
//!   the bytes of a file.
//! - The lines are read by `ma_lines`. Inside, `judge` (`phases`, in three `stages`) takes the
//!   sections and a `Stock` of boxes, goes through the phases up to the limit of links, from
//!   `model_walk` to `model_build`, and gives `Judged`: the component top, and the groups with the
//!   values that files are laid on; or the refusal of the first phase that refuses. The phases
//!   behind the limit stand in `ends`: paths are counted (`route_flat`), files of initial values
//!   read, and the drawn group is found (`group`).
//! - `initial_values` takes a room, the sections, the groups with their spaces
//!   (`GroupSpace`) and the values of their rows, and gives the values of each group with its map
//!   file and then its cells file laid on them. `read_file` reads one file of at most `MAX_FILE_BYTES` bytes.
//! - Definitions: `model_text/specs/ModelOf.antt` (`model_of`); the phases up to the limit in their
//!   order: `specs/Order.antt` (`up_to_limit`); what is answered: `specs/Read.antt` (`Reads`),
//!   `Whole.antt`. Of files: `model_text/specs/InitialFiles.antt`; what their reading comes to,
//!   also where it stops: `specs/Reading.antt`; how a file is laid on values:
//!   `cell_grid/specs/Initial.antt`. That the boxes stand ready is `model_leaves/specs/Boxes.antt`.
#![tactic(auto)]

mod ends;
mod file;
pub mod found;
mod group;
mod group_space;
mod initial;
mod lay;
mod phases;
pub mod read;
pub mod refusal;
mod stages;

pub use found::ReadModel;
pub use read::{read_model, read_model_bytes};
pub use refusal::ModelRefusal;
