//! Sets of leaves, which give up their members in rising order.
//!
//! - The trait `LeafSet`: `has`, `insert`, `remove`, `take_all`, `empty`. No call takes memory.
//! - Two sets: `FlagSet`, a flag for each leaf, and `BitSet`, a bit for each leaf and a mark for
//!   each word of bits; `words` has the calls on bits.
//! - Definitions: `specs/Members.antt`; of bits `Words.antt`.
#![tactic(auto)]

mod bits;
mod flags;
mod set;
mod words;

pub use bits::BitSet;
pub use flags::FlagSet;
pub use set::LeafSet;
