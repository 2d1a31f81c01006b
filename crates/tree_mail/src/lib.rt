//! The messages of a cycle that is served, and what is kept while they are.
//!
//! - `Message` is one of them (`message`); those that wait stand in a list in pieces of some
//!   hundred (`PieceList` of `list_in_pieces`), which is seen as the list of its items
//!   (`specs/Joined.antt`): `push` puts one behind all others, `take` takes the one of a number
//!   out, and moves those of its piece alone. `mail` has those that wait and what is kept of
//!   processors (`kept`), `lists` lists at ports, `tables` the tables of a model, `records` the
//!   records of a cycle.
//! - What one message does is computed in `tree_messages`.
#![tactic(auto)]

pub mod kept;
pub mod list_in_pieces;
pub mod lists;
pub mod mail;
pub mod message;
mod pieces;
mod place;
pub mod records;
pub mod tables;
pub mod transition;

pub use list_in_pieces::PieceList;
