//! The words of the rule language: a rule's text as tokens, and the definitions of its grammar.
//!
//! - `tokens` (`tokens`) takes the text of a rule and gives its `Token`s: words, numbers and marks
//!   (`Mark`), or nothing where a piece is none. `words_refused` gives the refusal of the first
//!   word that is none of the language, `is_large` tells of too many tokens or parentheses. `table`
//!   looks up operators, functions and counts, `cell` reads the coordinates and the port of a
//!   neighbour (`WrittenCell`).
//! - Types for the readers above: `Names`, the names that a group's rules may use; `RuleRefusal`,
//!   why a text is no rule; `Level`, a level of the grammar.
//! - Definitions: `specs/Tokens.antt`, `Grammar.antt` (which tokens are which phrase, by cases),
//!   `Reading.antt` (the phrase that tokens are), `RuleOf.antt` (the rule that a text is in a
//!   group, or its refusal; what holds of it: `RuleLaws.antt`). Expressions are read over these in
//!   `rule_phrases`, rules in `rule_syntax`, where the laws of the grammar stand.
#![tactic(auto)]

pub mod cell;
pub mod level;
pub mod names;
pub mod piece;
pub mod refusal;
pub mod table;
pub mod token;
pub mod tokens;
pub mod word;

pub use names::Names;
pub use refusal::RuleRefusal;
