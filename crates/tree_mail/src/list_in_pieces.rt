// A list in pieces, with the number of its items.
ghost use Rattle.std.specs.Prelude.{◌≡◌, ◌<◌, ◌++◌, ◌∷◌, [], Some, length, slice_get, OnOk, OnErr};
ghost use Rattle.std.specs.List.{remove};

use crate::pieces::{put, take};
use quantity::OutOfMemory;
use std::alloc::Global;
use std::marker::Model;

/// A list in pieces of at most some hundred items. It is seen as the list of its items.
#[derive(Drop)]
pub struct PieceList<T: Drop> {
    pieces: Vec<Vec<T>>,
    count: usize,
}

impl<T: Drop> Model for PieceList<T> {
    ghost use Rattle.std.specs.Prelude.{◌≡◌, List, length};
    ghost use Rattle.tree_mail.specs.Joined.{items_of_pieces};

    ghost Value = { List T };

    ghost view = { λ l. items_of_pieces l.pieces.items };

    ghost invariant = { λ l. l.count ≡ length (items_of_pieces l.pieces.items) };
}

impl<T: Drop> PieceList<T> {
    /// No items.
    pub fn new(alloc: Global) -> PieceList<T>
        ensures { result ≡ [] }
    {
        PieceList {
            pieces: Vec::new(alloc),
            count: 0,
        }
    }

    /// The number of items.
    pub fn len(&self) -> usize
        ensures { result ≡ length self.now }
    {
        self.count
    }

    /// No items any more.
    pub fn clear(&mut self)
        ensures { self.new ≡ [] }
    {
        self.pieces.clear();
        self.count = 0;
    }

    /// Puts an item behind all others. Without memory, or where there are too many items to be
    /// counted, the others stay.
    pub fn push(&mut self, alloc: Global, item: T) -> Result<(), OutOfMemory>
        ensures ok { OnOk result (self.new ≡ self.old ++ item ∷ []) }
        ensures err { OnErr result (self.new ≡ self.old) }
    {
        let Some(count) = self.count.checked_add(1) else {
            return Err(OutOfMemory);
        };
        put(alloc, &mut self.pieces, item)?;
        self.count = count;
        Ok(())
    }

    /// Takes the item of this number out, counted from 0; the others keep their order. It goes
    /// through the pieces, and moves the items of one.
    pub fn take(&mut self, number: usize) -> T
        requires { number < length self.old }
        ensures value { slice_get self.old number ≡ Some result }
        ensures left { self.new ≡ remove self.old number }
    {
        let item = take(&mut self.pieces, number);
        self.count -= 1;
        item
    }
}
