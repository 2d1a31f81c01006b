// Texts that are looked up without a walk over them.
ghost use Rattle.std.specs.Prelude.{◌≡◌, [], not, IfOk, OnOk, OnErr};
ghost use Rattle.quantity.specs.Bytes.{is_among};
ghost use Rattle.model_walk.specs.TextSets.{with_text};

use indexmap::IndexSet;
use quantity::OutOfMemory;
use std::alloc::Global;
use std::marker::Model;

/// Different texts, in the order in which they came.
#[derive(Drop)]
pub struct TextSet<'a> {
    texts: IndexSet<&'a [u8]>,
}

impl<'a> Model for TextSet<'a> {
    ghost use Rattle.std.specs.Prelude.{List, ℕ, map};

    ghost Value = { List (List ℕ) };

    ghost view = { λ s. map (λ r. r.now) s.texts.keys };
}

impl<'a> TextSet<'a> {
    /// No text.
    pub fn new(alloc: Global) -> TextSet<'a>
        ensures { result ≡ [] }
    {
        TextSet {
            texts: IndexSet::new(alloc),
        }
    }

    /// Whether the text is there.
    #[tactic(auto, using(crate::proofs::Named::among_texts))]
    pub fn contains(&self, text: &[u8]) -> bool
        ensures { result ≡ is_among self.now text.now }
    {
        self.texts.contains(text)
    }

    /// Puts a text behind the others, unless it is there; says whether it is new.
    #[tactic(auto, using(crate::proofs::Named::among_texts))]
    pub fn insert(&mut self, text: &'a [u8]) -> Result<bool, OutOfMemory>
        ensures is_new { IfOk result (λ is_new. is_new ≡ not (is_among self.old text.now)) }
        ensures added { OnOk result (self.new ≡ with_text self.old text.now) }
        ensures kept { OnErr result (self.new ≡ self.old) }
    {
        let Ok(is_new) = self.texts.insert(text) else {
            return Err(OutOfMemory);
        };
        Ok(is_new)
    }
}
