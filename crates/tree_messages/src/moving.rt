// A transition message to a leaf, and done messages.
ghost use Rattle.std.specs.Prelude.{◌≡◌, ◌<◌, ◌≤◌, [], ◌∷◌, length, IfOk, OnOk};
ghost use Rattle.run_leaves.specs.Moving.{StaysAs};
ghost use Rattle.served_tree.specs.Service.{next_of_children, stop_of_children, child_answer};
ghost use Rattle.served_tree.specs.Parts.{answer_of_both};
ghost use Rattle.tree_mail.specs.Notes.{notes_of, all_heard, answer_in, left_at, with_one_less as one_left_less};
ghost use Rattle.tree_messages.specs.Changes.{Becomes, MovesOn, changing_of_mail, has_to_move as needs_to_move, leaf_answers, puts_answered, notes_answered};
ghost use Rattle.tree_mail.specs.Puts.{done_with, joined_answer, component_answers, PutsBy, NotesBy};
ghost use Rattle.tree_messages.specs.Ready.{CanMove, IsAwaited};
ghost use Rattle.quantity.specs.Times.{earlier};

use crate::collect::is_due;
use atomic_face::{AtomicModel, PortNo};
use cell_engine::Steps;
use quantity::{OutOfMemory, Time, Value, earlier};
use run_leaves::FlatLeaves;
use run_model::LeafStop;
use std::sync::ledger::Ledger;
use tree_mail::kept::{Became, Kept, answer_by, has_answered, has_moved, one_less};
use tree_mail::mail::Mail;
use tree_mail::message::{Answer, Brought, Message};
use tree_mail::tables::parent_in;
use tree_tables::Entry;

/// A leaf has to move with this bag. It answers.
pub(crate) fn move_on<M: AtomicModel, L: Ledger>(
    processor: u32,
    leaf: u32,
    t: Time,
    brought: Brought,
    due: &mut Vec<Option<Time>>,
    leaves: &mut FlatLeaves<M>,
    mail: &mut Mail,
    steps: &mut Steps<L>,
) -> Result<(), OutOfMemory>
    requires leaf { CanMove t leaf brought.bag.items leaves.old due.old.items }
    requires kept { processor < length mail.old.kept.items }
    ensures moves { OnOk result (MovesOn t processor leaf brought.bag.items brought.woken
        (changing_of_mail mail.old leaves.old due.old.items)
        (changing_of_mail mail.new leaves.new due.new.items)) }
    ensures stays { StaysAs leaves.old leaves.new }
{
    let became = move_if(leaf, t, brought.woken, &brought.bag, due, leaves, steps)?;
    let answer = leaf_answer(leaf, &became, due[leaf as usize]);
    has_moved(&mut mail.kept, processor, brought.bag, became);
    mail.put(Message::Done(processor, answer))
}

/// A leaf moves where it has to; one that isn't due, isn't woken and has an empty bag stays as it
/// is.
fn move_if<M: AtomicModel, L: Ledger>(
    leaf: u32,
    t: Time,
    woken: bool,
    bag: &[(PortNo, Value)],
    due: &mut Vec<Option<Time>>,
    leaves: &mut FlatLeaves<M>,
    steps: &mut Steps<L>,
) -> Result<Became, OutOfMemory>
    requires { CanMove t leaf bag.now leaves.old due.old.items }
    ensures becomes { IfOk result (λ became. Becomes t woken bag.now leaf leaves.old leaves.new
        due.old.items due.new.items became) }
    ensures stays { StaysAs leaves.old leaves.new }
{
    if !has_to_move(due[leaf as usize], t, woken, bag) {
        return Ok(Became::Stayed);
    }
    match leaves.move_leaf(leaf, t, woken, bag, steps) {
        Ok(told) => {
            due[leaf as usize] = told.next;
            Ok(Became::Moved(told.value))
        }
        Err(LeafStop::Rule(why)) => Ok(Became::Stopped(why)),
        Err(LeafStop::Memory) => Err(OutOfMemory),
    }
}

/// Whether a leaf that is due then has to move.
fn has_to_move(due: Option<Time>, t: Time, woken: bool, bag: &[(PortNo, Value)]) -> bool
    ensures { result ≡ needs_to_move t due woken bag.now }
{
    is_due(due, t) | woken | !bag.is_empty()
}

/// What a leaf answers that became this and is due then. One that has stopped has no next time.
fn leaf_answer(leaf: u32, became: &Became, due: Option<Time>) -> Answer
    ensures { answer_in result ≡ leaf_answers leaf became.now due }
{
    match *became {
        Became::Stayed | Became::Moved(_) => Answer {
            next: due,
            stop: None,
        },
        Became::Stopped(why) => Answer {
            next: None,
            stop: Some((leaf, why)),
        },
    }
}

/// A processor is done: its parent keeps the answer and, once all children have answered, answers
/// itself; from top it goes to the root, which puts nothing.
pub(crate) fn take_answer(
    entries: &[Entry],
    from: u32,
    answer: Answer,
    mail: &mut Mail,
) -> Result<(), OutOfMemory>
    requires from { from < length mail.old.kept.items }
    requires waits { IsAwaited entries.now from (notes_of mail.old.kept.items) }
    ensures puts { OnOk result
        (PutsBy (puts_answered entries.now from (answer_in answer)) mail.old mail.new) }
    ensures notes { OnOk result
        (NotesBy (notes_answered entries.now from (answer_in answer)) mail.old mail.new) }
{
    has_answered(&mut mail.kept, from, answer);
    let parent = parent_in(entries, from);
    match entries.get(parent as usize) {
        None => Ok(()),
        Some(entry) => count_answered(parent, &entry.children, mail),
    }
}

/// One more child of a component has answered. Once all have, the component answers.
fn count_answered(component: u32, children: &[u32], mail: &mut Mail) -> Result<(), OutOfMemory>
    requires { 1 ≤ left_at (notes_of mail.old.kept.items) component }
    ensures puts { OnOk result
        (PutsBy (component_answers component children.now) mail.old mail.new) }
    ensures notes { OnOk result (NotesBy (one_left_less component) mail.old mail.new) }
{
    if one_less(&mut mail.kept, component) {
        return answer_on(component, children, mail);
    }
    Ok(())
}

/// A component whose children have all answered answers.
fn answer_on(component: u32, children: &[u32], mail: &mut Mail) -> Result<(), OutOfMemory>
    ensures puts { OnOk result (PutsBy
        (λ notes. done_with component (joined_answer notes children.now) ∷ []) mail.old mail.new) }
    ensures kept { mail.new.kept ≡ mail.old.kept }
{
    let joined = answer_of_all(children, &mail.kept);
    mail.put(Message::Done(component, joined))
}

/// The least next time of children, and the stop of the first that has one.
fn answer_of_all(children: &[u32], kept: &[Kept]) -> Answer
    ensures { answer_in result ≡ joined_answer (notes_of kept.now) children.now }
{
    let mut all = Answer {
        next: None,
        stop: None,
    };
    for child in children {
        all = join(all, answer_by(kept, *child));
    }
    all
}

/// The earlier next time of two answers, and the first stop.
fn join(a: Answer, b: Answer) -> Answer
    ensures { answer_in result ≡ answer_of_both (answer_in a) (answer_in b) }
{
    Answer {
        next: earlier(a.next, b.next),
        stop: a.stop.or(b.stop),
    }
}
