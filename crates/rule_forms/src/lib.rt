//! Rules as they are kept to be evaluated: each expression as a tree of forms, in which what often
//! stands together is one node.
//!
//! - `RuleCode::make` takes a `RuleTree` and gives a `RuleCode`, which has the forms of what a rule
//!   gives, of its delay, its condition and its sets (`Form`, `Test`, `NumberedForm`), and beside
//!   them what is the same whatever a cell sees (`constant_delay`, `constant`); `value_alone` tells
//!   the form of a value that is given alone.
//! - A `RuleCode` is seen as the rule of the definitions that it stands for; `depth` is how many
//!   arguments of functions stand on the stack at most while it is evaluated.
//! - `Given` is what a rule gives, by port; `delay_in` makes a delay of a value.
//! - Definitions: `specs/Forms.antt` (the expression that a form stands for), `Numbered.antt` (the
//!   rule), `Depth.antt`, `Known.antt`; what an expression gives to a rule, or why that stops:
//!   `Stops.antt`; what rules give port by port: `ByPort.antt`.
#![tactic(auto)]

mod depth;
pub mod forms;
pub mod given;
pub mod known;
mod lowering;
pub mod numbered;
pub mod rule_code;
pub mod whole_numbers;

pub use forms::{Form, PlainTest, PortAt, Test, plain_number};
pub use given::Given;
pub use known::{Constant, delay_in};
pub use numbered::NumberedForm;
pub use rule_code::RuleCode;
pub use whole_numbers::whole_number;
