//! Evaluation of rules: what the first true rule of a list gives to a cell.
//!
//! - `evaluate` takes the `RuleCode`s of a rule set, a `View` (what the cell sees: time, place,
//!   neighbours' values, variables) and room on a `Stack`, and gives the values by port with their
//!   delay, and the variables after the sets; or `RuleStop`: no true rule, an overflow, or a delay
//!   that is none. It takes no memory. `evaluate_counted` goes by counts that are kept (`Tally`);
//!   `evaluate_lent` copies nothing that it can lend (`Lent`).
//! - Definitions: `rule_tree/specs/Chosen.antt` (`outcome_of_rules`) over the sight that a
//!   view shows (`specs/Seen.antt`); what forms answer: `specs/Tests.antt`, `Sums.antt`.
//! - It rests on `rule_forms`, by whose forms it goes.
#![tactic(auto)]

mod answers;
mod apply;
mod counts;
mod evaluation;
mod few;
pub mod lent;
mod numbers;
mod outs;
mod seen;
pub mod stack;
mod sums;
pub mod tally;
pub mod view;

pub use evaluation::{evaluate, evaluate_counted, evaluate_into, evaluate_lent};
pub use few::go_by_few;
pub use lent::Lent;
pub use rule_forms::{Constant, Given, RuleCode};
pub use stack::Stack;
pub use tally::Tally;
pub use view::View;
