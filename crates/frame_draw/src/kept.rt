// A short text that is kept.
ghost use Rattle.std.specs.Prelude.{◌≡◌, [], true};

use std::marker::Model;

/// A text of at most 24 bytes.
#[derive(Drop)]
pub(crate) struct Kept {
    bytes: [u8; 24],
    len: usize,
}

impl Model for Kept {
    ghost use Rattle.std.specs.Prelude.{List, ℕ, ◌≤◌, take};

    ghost Value = { List ℕ };

    ghost view = { λ k. take k.len k.bytes };

    ghost invariant = { λ k. k.len ≤ 24 };
}

impl Kept {
    pub(crate) fn new() -> Kept
        ensures { result ≡ [] }
    {
        Kept {
            bytes: [0; 24],
            len: 0,
        }
    }

    /// Keeps a text in place of what was kept, where it is short enough.
    pub(crate) fn keep(&mut self, text: &[u8]) -> bool
        ensures { result ≡ true → self.new ≡ text.now }
    {
        if 24 < text.len() {
            return false;
        }
        self.bytes[..text.len()].copy_from_slice(text);
        self.len = text.len();
        true
    }

    #[inline(always)]
    pub(crate) fn as_bytes(&self) -> &[u8]
        ensures { result.now ≡ self.now }
    {
        &self.bytes[..self.len]
    }
}
