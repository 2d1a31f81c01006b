// The messages that wait, and what is kept of processors; how both begin in a cycle.
ghost use Rattle.std.specs.Prelude.{◌≡◌, ◌++◌, ◌∷◌, [], map, IfOk, OnOk, OnErr};
ghost use Rattle.served_tree.specs.Service.{collect, gave_of, child_answer};
ghost use Rattle.tree_mail.specs.Notes.{notes_of, fresh_note, all_heard, answer_in};
ghost use Rattle.tree_mail.specs.Puts.{Puts};

use crate::kept::{Kept, answer_by, given_by, keep_nothing};
use crate::list_in_pieces::PieceList;
use crate::message::{Answer, Message};
use atomic_face::PortNo;
use quantity::{OutOfMemory, Value};
use std::alloc::Global;
use tree_tables::Entry;

/// What waits, and what is kept.
#[derive(Drop)]
pub struct Mail {
    pub waiting: PieceList<Message>,
    pub kept: Vec<Kept>,
}

impl Mail {
    /// Nothing waits and nothing is kept; there is room to keep something of so many processors.
    pub fn new(alloc: Global, processors: usize) -> Result<Mail, OutOfMemory>
        ensures waiting { IfOk result (λ m. m.waiting ≡ []) }
        ensures kept { IfOk result (λ m. m.kept.items ≡ []) }
    {
        Ok(Mail {
            waiting: PieceList::new(alloc),
            kept: Vec::with_capacity(alloc, processors)?,
        })
    }

    /// Nothing waits any more and nothing is kept.
    pub fn clear(&mut self)
        ensures waiting { self.new.waiting ≡ [] }
        ensures kept { self.new.kept.items ≡ [] }
    {
        self.waiting.clear();
        self.kept.clear();
    }

    /// The question to top waits behind the others, and nothing is kept of any processor.
    pub fn begin(&mut self, entries: &[Entry]) -> Result<(), OutOfMemory>
        ensures waiting { OnOk result (Puts self.old.waiting self.new.waiting (collect 0 ∷ [])) }
        ensures kept { OnOk result (notes_of self.new.kept.items ≡ map fresh_note entries.now) }
    {
        let alloc = *self.kept.allocator();
        keep_nothing(alloc, entries, &mut self.kept)?;
        self.put(Message::Collect(0))
    }

    /// Puts a message behind the others. Without memory nothing changes.
    pub fn put(&mut self, message: Message) -> Result<(), OutOfMemory>
        ensures waiting { OnOk result (self.new.waiting ≡ self.old.waiting ++ message ∷ []) }
        ensures err { OnErr result (self.new.waiting ≡ self.old.waiting) }
        ensures kept { self.new.kept ≡ self.old.kept }
    {
        let alloc = *self.kept.allocator();
        self.waiting.push(alloc, message)
    }

    /// What a processor gave, if it gave.
    pub(crate) fn gave(&self, processor: u32) -> &[(PortNo, Value)]
        ensures { result.now ≡ gave_of (all_heard (notes_of self.now.kept.items)) processor }
    {
        given_by(&self.kept, processor)
    }

    /// What a processor answered; nothing where it hasn't answered.
    pub(crate) fn answer(&self, processor: u32) -> Answer
        ensures { answer_in result
            ≡ child_answer (all_heard (notes_of self.now.kept.items)) processor }
    {
        answer_by(&self.kept, processor)
    }
}
