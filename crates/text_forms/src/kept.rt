// A short text that is kept, and lines that begin with it.
ghost use Rattle.std.specs.Prelude.{◌≡◌, ◌++◌, [], length, take, true, OnOk};
ghost use Rattle.text_forms.specs.Placed.{IsShort, short_text};

use crate::placed::write_place;
use crate::tail::Tail;
use quantity::{OutOfMemory, Place, put};
use std::marker::Model;

/// A text of at most 96 bytes, with room behind it for the rest of a short line.
#[derive(Drop)]
pub(crate) struct Kept {
    bytes: [u8; 128],
    len: usize,
}

impl Model for Kept {
    ghost use Rattle.std.specs.Prelude.{List, ℕ, ◌≤◌, take};

    ghost Value = { List ℕ };

    ghost view = { λ k. take k.len k.bytes };

    ghost invariant = { λ k. k.len ≤ 96 };
}

impl Kept {
    pub(crate) fn new() -> Kept
        ensures { result ≡ [] }
    {
        Kept {
            bytes: [0; 128],
            len: 0,
        }
    }

    /// Keeps a text in place of what was kept, where it is short enough.
    pub(crate) fn keep(&mut self, text: &[u8]) -> bool
        ensures { result ≡ true → self.new ≡ text.now }
    {
        if 96 < text.len() {
            return false;
        }
        self.bytes[..text.len()].copy_from_slice(text);
        self.len = text.len();
        true
    }

    /// Appends what is kept, the coordinates of a cell, and the rest of its line. They are written
    /// behind what is kept, so that a line is one copy.
    #[inline(always)]
    pub(crate) fn put_line(
        &mut self,
        place: &Place,
        tail: &Tail,
        into: &mut Vec<u8>,
    ) -> Result<(), OutOfMemory>
        requires { IsShort place.now }
        ensures same { self.new ≡ self.old }
        ensures ok { OnOk result
            (into.new.items ≡ into.old.items ++ (self.old ++ (short_text place.now ++ tail.now))) }
        ensures kept { take (length into.old.items) into.new.items ≡ into.old.items }
    {
        let behind = write_place(&mut self.bytes, self.len, place);
        let end = tail.write(&mut self.bytes, behind);
        put(&self.bytes[..end], into)
    }

    #[inline(always)]
    pub(crate) fn as_bytes(&self) -> &[u8]
        ensures { result.now ≡ self.now }
    {
        &self.bytes[..self.len]
    }
}
