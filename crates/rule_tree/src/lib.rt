//! Definitions of rules: rules as trees, what an expression means over what a cell sees, which
//! rules are sound for a group, and what the first true rule gives.
//!
//! - Types: `RuleTree` with `Node`, `Give` and `SetVariable`; `Function`, a row for each function
//!   of the language with its word and its `Sort`s; `Answer`, and `RuleStop`, why no rule gives a
//!   result. The only code is what `Function` tells of itself (`word`, `takes`, `gives`, `ALL`).
//! - Definitions: `specs/Expression.antt`, `Sight.antt` (what a cell sees), `Functions.antt` (the
//!   rows), `Meaning.antt`, `Chosen.antt` (the first true rule); of rules as they are written
//!   `Phrases.antt`, `Scope.antt` (what names stand for in a group), `Sound.antt`.
//! - Laws (`laws`): each function is found by its word; gives in written order may be taken port by
//!   port (`Ports.antt`); examples. Rules are read in `rule_syntax` and evaluated in `rule_eval`.
#![tactic(auto)]

pub mod function;
pub mod laws;
pub mod node;
pub mod outcome;

pub use function::{Function, Sort};
pub use node::{Binary, Count, Give, Node, RuleTree, SetVariable, Unary};
pub use outcome::{Answer, RuleStop};
