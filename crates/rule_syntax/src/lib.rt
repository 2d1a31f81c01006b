//! The reader of rules: from a text to the tree of a rule, or to the first refusal that applies.
//!
//! - `Rule::read` takes a text in lower-case letters and the `Names` of a group, and gives a
//!   `RuleTree` of `rule_tree`, or `RuleRefusal`. Its parts: values for ports and variables
//!   (`assigned`, `named`) and the whole rule (`written`), over the expressions of `rule_phrases`.
//! - Definitions: `rule_words/specs/RuleOf.antt` (`rule_of`); what is known of a rule as it is
//!   read: `specs/RulesRead.antt`.
//! - Laws (`texts`): the grammar is found, and in one way, so that precedence is a theorem; a text
//!   has one outcome; a rule that is read is sound for its group; examples of texts that are read
//!   and refused.
#![tactic(auto)]

mod assigned;
mod named;
pub mod rule;
pub mod texts;
mod written;

pub use rule::Rule;
pub use rule_words::names::Names;
pub use rule_words::refusal::RuleRefusal;
