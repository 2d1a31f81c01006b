//! A model whose leaves (cells and atomic components) stand in a table, in declared order.
//!
//! - `Model::new` takes the component top and makes the table; then `leaf_at` says where a leaf
//!   stands, and `cell_at` of a cell also name and space of its group; `leaf_text`, `port_text` and
//!   `out_port_text` say how it and its ports are called, `ports_at` which input ports it has.
//!   `all_groups` gives the groups in one walk, `group` one by its number, `lay` gives them their
//!   values at the start.
//! - Paths by numbers: `Source`, `Path`, `TargetPort` and `Target` (`path`), and the trait `Routing`,
//!   by which they are found by their sources (`specs/Numbered.antt`). The net and the routes of a
//!   model are worked out above (`port_net`, `route_flat`), and so is a cycle that goes by them.
//! - Definitions: `specs/LeafTexts.antt`, `Laid.antt`; the plain value of a `Model`: `Models.antt`;
//!   over the trees of `model_tree`.
//! - `specs/Boxes.antt` (`BoxesStand`) says what the boxes of a model are when a run may start from
//!   it: each atomic leaf has a box of its own in the stock, taken, and in the state that its
//!   settings give. The reader promises it (`read_model` of `model_read`), and a run asks for it
//!   (`FlatRun::new` of `flat_run`, `FlatLeaves::new` of `run_leaves`), so neither stands on the
//!   other.
#![tactic(auto)]

pub mod count;
mod find;
mod gathered;
mod growing;
pub mod input_names;
mod laying;
mod leaf_rows;
mod leaf_texts;
pub mod leaves;
pub mod path;
pub mod routing;
pub mod table;
mod walked;

pub use leaves::{CellAt, LeafAt};
pub use path::{Path, Source, Target, TargetPort};
pub use routing::Routing;
pub use table::Model;
