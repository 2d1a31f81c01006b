//! The messages of a cycle that is served, and what serving one of them changes.
//!
//! - `Mail` (`mail`) has the messages that wait (`Message` of `message`) and what is kept of each
//!   processor (`Kept` of `kept`). `Tables` (`tables`) has the processors of a model by their
//!   numbers, and the spaces of its groups.
//! - `served_by` and `serve_message` (`serving`) tell of a message that was taken out (`Served`),
//!   and serve it: a leaf gives or moves, messages are put behind the others, and what is kept
//!   changes. Its parts: `collect`, `transition`, `moving`, and the lists at ports (`lists`).
//! - `start_times` and `least_time` (`start`) say when leaves are due at their start, and which is
//!   due first; `begin` begins the cycle of an instant, and `end_of` (`records`) makes its records,
//!   or says by `Stop` why it stops.
//! - The messages that wait stand in a list in pieces of some hundred (`PieceList` of
//!   `list_in_pieces`), which is seen as the list of its items (`specs/Joined.antt`): `push` puts
//!   one behind all others, `take` takes the one of a number out, and moves those of its piece
//!   alone.
//! - Definitions: `specs/Ready.antt` (what has to hold where a message is served), `Puts.antt`
//!   (what that changes), `Mail.antt`, `Notes.antt`, `Due.antt` and `Tabled.antt` (how that stands
//!   for the service of `served_tree`), `Starting.antt`, `Recorded.antt`.
//! - It rests on `tree_tables` for who stands where, and on `run_leaves` for the leaves.
#![tactic(auto)]

mod collect;
pub mod moving;
pub mod serving;
pub mod start;
