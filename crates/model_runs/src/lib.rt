//! Tests of what a model is read from, with enough memory: rules, boxes, parts of the reader, and
//! the whole gallery.
//!
//! - A text is read as a rule, and others are refused, each for its reason (`rule_texts`); a rule
//!   with all parts gives and sets, rules stop, and trees become forms (`outcomes`).
//! - A queue, a generator, a cpu and a counter are settled and led through their moves, at values
//!   worked out by hand (`classes`), and so is a state table (`tables`); what a box does from an
//!   instant on is in `moves`.
//! - A walk goes down first (`walks`); tuples stand behind the group and stay whole in links
//!   (`forms`); the least key is refused (`keys`); links of a tree are added and refused, its
//!   leaves and ports are called by their names (`trees`); the made text has five rows and columns
//!   (`made_texts`).
//! - Each model of `examples/` is read, with its files, from a room in memory, over two boxes of
//!   each class (`gallery`). The texts stand in `gallery_texts`, which scripts/gallery-texts writes
//!   from `examples/`; scripts/check-examples runs the examples. Models that are refused:
//!   `whole_runs`.
//! - Crates that are tried: `rule_syntax`, and below it `rule_words`; `rule_eval`, and below it
//!   `rule_forms`; `atomic_face`, `atomic_kinds`, `state_tables`; `model_walk`, `model_keys`,
//!   `model_tree`, `model_text`; `model_read`, with all on which it stands.
#![tactic(auto)]

#[cfg(test)]
mod classes;
#[cfg(test)]
mod forms;
#[cfg(test)]
mod gallery;
#[cfg(test)]
mod gallery_texts;
#[cfg(test)]
mod inputs;
#[cfg(test)]
mod keys;
#[cfg(test)]
mod made_texts;
#[cfg(test)]
mod moves;
#[cfg(test)]
mod outcomes;
#[cfg(test)]
mod rule_texts;
#[cfg(test)]
mod tables;
#[cfg(test)]
mod trees;
#[cfg(test)]
mod walks;
