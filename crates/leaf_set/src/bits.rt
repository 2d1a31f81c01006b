// The set that has a bit for each leaf, and a bit for each 64 leaves.
ghost use Rattle.std.specs.Prelude.{◌≡◌, false, replicate, IfOk};

use crate::set::LeafSet;
use crate::words;
use quantity::OutOfMemory;
use std::alloc::Global;
use std::marker::Model;

/// A set of leaves as a bit for each of them, 64 to a word, and a mark, which is a bit too, for
/// each word that may have a member. When the members are taken, all marks are gone through, 64 at
/// a time, and of the words only those that have a mark.
#[derive(Drop)]
pub struct BitSet {
    count: u32,
    words: Vec<u64>,
    marks: Vec<u64>,
}

impl Model for BitSet {
    ghost use Rattle.std.specs.Prelude.{Bool, List};
    ghost use Rattle.leaf_set.specs.Words.{flags_of, AreMarked};

    ghost Value = { List Bool };

    ghost view = { λ s. flags_of s.words.items s.count };

    ghost invariant = { λ s. AreMarked s.count s.words.items s.marks.items };
}

impl BitSet {
    /// The empty set of so many leaves.
    pub fn with_leaves(alloc: Global, n: u32) -> Result<BitSet, OutOfMemory>
        ensures { IfOk result (λ s. s ≡ replicate n false) }
    {
        let blocks = n as usize / 4096 + 1;
        let words = vec![in alloc; 0; 64 * blocks]?;
        let marks = vec![in alloc; 0; blocks]?;
        Ok(BitSet {
            count: n,
            words,
            marks,
        })
    }
}

impl LeafSet for BitSet {
    ghost members = { λ s. s };

    fn has(&self, leaf: u32) -> bool {
        words::is_set(&self.words, leaf)
    }

    // A leaf that is in already has its mark.
    fn insert(&mut self, leaf: u32) {
        if words::is_set(&self.words, leaf) {
            return;
        }
        words::set(&mut self.words, leaf);
        words::set(&mut self.marks, leaf / 64);
    }

    // The mark of the leaf's word stays until the members are taken.
    fn remove(&mut self, leaf: u32) {
        words::clear(&mut self.words, leaf);
    }

    // Words of the other set that have no member are passed over, 64 at a time.
    fn join(&mut self, other: &BitSet) {
        words::join_marked(&mut self.words, &mut self.marks, &other.words, &other.marks);
    }

    fn take_all(&mut self, into: &mut Vec<u32>) {
        words::take_marked(&mut self.words, &mut self.marks, into);
    }

    fn empty(&mut self) {
        words::clear_marked(&mut self.words, &mut self.marks);
    }
}
