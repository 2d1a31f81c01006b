// What is kept of processors while a cycle is served.
ghost use Rattle.std.specs.Prelude.{◌≡◌, ◌<◌, ◌≤◌, ◌==◌, [], length, map, unwrap_or, OnOk};
ghost use Rattle.served_tree.specs.Service.{gave_of, child_answer};
ghost use Rattle.tree_mail.specs.Notes.{note_of, notes_of, nothing_noted, fresh_note, all_heard, answer_in, given_noted, answer_noted, move_noted, left_at, with_one_less as one_left_less, left_noted};

use crate::message::Answer;
use atomic_face::PortNo;
use quantity::{OutOfMemory, Value};
use rule_tree::RuleStop;
use std::alloc::{AllocError, Global};
use tree_tables::Entry;

/// What became of a leaf: its computed value where it moved, for its record.
#[derive(Clone, Copy)]
pub enum Became {
    Stayed,
    Moved(Option<Value>),
    Stopped(RuleStop),
}

/// What is kept of a processor: by its parent what it gave and answered, by a leaf what it took and
/// what became of it. `left` children have still to give, or to answer.
#[derive(Drop)]
pub struct Kept {
    pub gave: Option<Vec<(PortNo, Value)>>,
    pub took: Vec<(PortNo, Value)>,
    pub became: Became,
    pub answered: Option<Answer>,
    pub left: usize,
}

impl Kept {
    /// Nothing, of a processor with so many children.
    pub(crate) fn nothing(alloc: Global, children: usize) -> Kept
        ensures { note_of result ≡ nothing_noted children }
    {
        Kept {
            gave: None,
            took: Vec::new(alloc),
            became: Became::Stayed,
            answered: None,
            left: children,
        }
    }
}

/// Nothing is kept of any of these processors, in place of what was kept.
pub(crate) fn keep_nothing(
    alloc: Global,
    entries: &[Entry],
    kept: &mut Vec<Kept>,
) -> Result<(), OutOfMemory>
    ensures { OnOk result (notes_of kept.new.items ≡ map fresh_note entries.now) }
{
    kept.clear();
    for entry in entries {
        let nothing = Kept::nothing(alloc, entry.children.len());
        kept.push(nothing).map_err(AllocError::from)?;
    }
    Ok(())
}

/// What a processor gave of which this is kept, nothing where it hasn't given.
pub(crate) fn gave_in(kept: &Kept) -> &[(PortNo, Value)]
    ensures { result.now ≡ unwrap_or (note_of kept.now).gave [] }
{
    match &kept.gave {
        None => &[],
        Some(bag) => bag,
    }
}

/// What a processor gave, if it is there and gave.
pub(crate) fn given_by(kept: &[Kept], processor: u32) -> &[(PortNo, Value)]
    ensures { result.now ≡ gave_of (all_heard (notes_of kept.now)) processor }
{
    match kept.get(processor as usize) {
        None => &[],
        Some(k) => gave_in(k),
    }
}

/// What a processor answered; nothing where it isn't there or hasn't answered.
pub fn answer_by(kept: &[Kept], processor: u32) -> Answer
    ensures { answer_in result ≡ child_answer (all_heard (notes_of kept.now)) processor }
{
    let none = Answer {
        next: None,
        stop: None,
    };
    match kept.get(processor as usize) {
        None => none,
        Some(k) => k.answered.unwrap_or(none),
    }
}

/// A processor gave this.
pub fn has_given(kept: &mut Vec<Kept>, processor: u32, bag: Vec<(PortNo, Value)>)
    requires { processor < length kept.old.items }
    ensures { notes_of kept.new.items ≡ given_noted processor bag.items (notes_of kept.old.items) }
{
    kept[processor as usize].gave = Some(bag);
}

/// A processor answered this.
pub fn has_answered(kept: &mut Vec<Kept>, processor: u32, answer: Answer)
    requires { processor < length kept.old.items }
    ensures { notes_of kept.new.items
        ≡ answer_noted processor (answer_in answer) (notes_of kept.old.items) }
{
    kept[processor as usize].answered = Some(answer);
}

/// A processor took this and, where it is a leaf, became this.
pub fn has_moved(kept: &mut Vec<Kept>, processor: u32, bag: Vec<(PortNo, Value)>, became: Became)
    requires { processor < length kept.old.items }
    ensures { notes_of kept.new.items
        ≡ move_noted processor bag.items became (notes_of kept.old.items) }
{
    let k = &mut kept[processor as usize];
    k.took = bag;
    k.became = became;
}

/// So many children of a processor have still to answer.
pub fn wait_for(kept: &mut Vec<Kept>, processor: u32, children: usize)
    requires { processor < length kept.old.items }
    ensures { notes_of kept.new.items ≡ left_noted processor children (notes_of kept.old.items) }
{
    kept[processor as usize].left = children;
}

/// A child more of a processor has given, or answered. Whether it was the last.
pub fn one_less(kept: &mut Vec<Kept>, processor: u32) -> bool
    requires { 1 ≤ left_at (notes_of kept.old.items) processor }
    ensures last { result ≡ (left_at (notes_of kept.old.items) processor == 1) }
    ensures kept { notes_of kept.new.items ≡ one_left_less processor (notes_of kept.old.items) }
{
    let left = kept[processor as usize].left;
    kept[processor as usize].left = left - 1;
    left == 1
}
