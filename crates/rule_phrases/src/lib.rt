//! The reader of expressions: from tokens to a term, by descent through the levels of the grammar;
//! and what is known of each expression as it is read: its tree, its sort, and which of its names
//! the group doesn't have.
//!
//! - `phrase` (`phrase`) takes the names of a group and tokens, and gives the `Term` that all of
//!   them are, or none. Below it: what holds no other expression (`atom`), and operators, signs,
//!   arguments and closing parentheses (`between`).
//! - Types: `Term`, an expression that was read, made of lesser ones (`Term::value` to
//!   `Term::call`); `Lacks`, which kinds of names are lacking; `Front`, a term and the tokens
//!   behind it.
//! - `offset_number`, `variable_number`, `port_number` (`scope`) give the number that a name or a
//!   cell's coordinates stand for in a group; `sort_of_one`, `sort_of_two`, `sort_of_call` (`sort`)
//!   give the sort of an operator or a function of its operands.
//! - Definitions: the phrase that tokens are is that of `rule_words/specs/Reading.antt`, read from
//!   left to right in `rule_words/specs/Descent.antt`; the parts between phrases are in
//!   `specs/Between.antt`. That a term is that of a phrase: `specs/Terms.antt` (`Stands`), over
//!   `rule_tree/specs/Scope.antt` and `Sound.antt`.
#![tactic(auto)]

pub mod atom;
pub mod between;
pub mod front;
pub mod phrase;
pub mod scope;
pub mod sort;
pub mod term;
