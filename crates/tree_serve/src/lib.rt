//! A run whose cycles are served message by message, in any order: each component, group, cell and
//! box of the model is a processor, as the DEVS literature has them (Chow and Zeigler 1994).
//!
//! - `TreeRun::new` takes a sound model with its boxes and events. `start` begins the cycle that is
//!   due (`Started`), `serve` serves one of the messages that wait, by its number among them, and
//!   tells of it (`Served`); `finish` ends the cycle with its records, or with the stop of the
//!   first leaf. `processors` and `waiting` count, `model` lends the model.
//! - `ServedRun` serves each cycle whole, in the order of a seed (`serve_all`), and is one of the
//!   runs that the program goes through (`Cycles` of `run_leaves`); `Order` has the seed that is left
//!   and the mark of the order.
//! - Definitions: `specs/Calls.antt` (what calls do, over `Service.antt` of `served_tree`),
//!   `InCycle.antt` (the relation that service keeps, which names no order), `Processing.antt`
//!   (what is seen of a run), `Ordered.antt`. That any order gives the cycle of the reference run
//!   is the law `any_order_serves` of `served_tree`.
//! - It rests on `tree_messages` for what serving a message changes.
#![tactic(auto)]

pub mod ordered;
mod parts;
pub mod run;
pub mod served;
pub mod started;

pub use ordered::Order;
pub use run::TreeRun;
pub use served::ServedRun;
pub use started::Started;
pub use tree_mail::message::{MessageKind, Served};
