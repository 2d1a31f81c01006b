// What stands behind the leaf in a line, where it is short.
ghost use Rattle.std.specs.Prelude.{◌≡◌, ◌+◌, ◌≤◌, ◌++◌, [], length};
ghost use Rattle.text_forms.specs.Placed.{Placed};

use crate::placed::write;
use std::marker::Model;

/// A text of at most 16 bytes, which are copied as one.
#[derive(Drop)]
pub(crate) struct Tail {
    bytes: [u8; 16],
    len: usize,
}

impl Model for Tail {
    ghost use Rattle.std.specs.Prelude.{List, ℕ, ◌≤◌, take};

    ghost Value = { List ℕ };

    ghost view = { λ t. take t.len t.bytes };

    ghost invariant = { λ t. t.len ≤ 16 };
}

impl Tail {
    /// No text.
    #[inline(always)]
    pub(crate) fn none() -> Tail
        ensures { result ≡ [] }
    {
        Tail {
            bytes: [0; 16],
            len: 0,
        }
    }

    /// Two texts, one behind the other.
    #[inline(always)]
    pub(crate) fn of(first: &[u8], second: &[u8]) -> Tail
        requires { length first.now + length second.now ≤ 16 }
        ensures { result ≡ first.now ++ second.now }
    {
        let mut bytes = [0; 16];
        let behind = write(&mut bytes, 0, first);
        let len = write(&mut bytes, behind, second);
        Tail { bytes, len }
    }

    /// Writes it behind the first bytes of a row that has room for 16 more. The answer is where it
    /// ends.
    #[inline(always)]
    pub(crate) fn write(&self, row: &mut [u8], at: usize) -> usize
        requires { at + 16 ≤ length row.old }
        ensures { Placed row.old row.new at self.now result }
    {
        write(row, at, &self.bytes);
        at + self.len
    }

    #[inline(always)]
    pub(crate) fn as_bytes(&self) -> &[u8]
        ensures { result.now ≡ self.now }
    {
        &self.bytes[..self.len]
    }
}
