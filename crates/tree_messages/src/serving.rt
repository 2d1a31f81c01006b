// A message that was taken out is served.
ghost use Rattle.std.specs.Prelude.{◌≡◌, ◌<◌, ℕ, List, Option, length, OnOk};
ghost use Rattle.run_leaves.specs.Moving.{StaysAs};
ghost use Rattle.tree_mail.specs.Mail.{message_in, served_by_tables, served_of};
ghost use Rattle.tree_messages.specs.Changes.{AsksAt, changing_of_mail, ChangesBy, TransitsBy, PassesBy};
ghost use Rattle.tree_messages.specs.Ready.{CanAsk, CanServeBy, CanTransitBy};
ghost use Rattle.tree_mail.specs.Puts.{CanPass};

use crate::collect::{ask_all, ask_leaf, take_output};
use crate::moving::{move_on, take_answer};
use atomic_face::{AtomicModel, PortNo};
use cell_engine::Steps;
use quantity::{OutOfMemory, Time, Value};
use run_leaves::FlatLeaves;
use std::sync::ledger::Ledger;
use tree_mail::kept::{Became, has_moved};
use tree_mail::mail::Mail;
use tree_mail::message::{Brought, Message, MessageKind, Served};
use tree_mail::tables::{Tables, parent_in};
use tree_mail::transition::pass_on;
use tree_tables::Entry;

/// Who serves a message, of what kind it is, and the next time that it carries.
pub fn served_by(entries: &[Entry], message: &Message) -> Served
    ensures { served_of result ≡ served_by_tables entries.now (message_in message.now) }
{
    match message {
        Message::Collect(to) => served(*to, MessageKind::Collect, None),
        Message::Output(from, _) => { served(parent_in(entries, *from), MessageKind::Output, None) }
        Message::Transition(to, _, _) => served(*to, MessageKind::Transition, None),
        Message::Done(from, answer) => {
            served(parent_in(entries, *from), MessageKind::Done, answer.next)
        }
    }
}

/// These three as one.
fn served(processor: u32, kind: MessageKind, next: Option<Time>) -> Served
    ensures { result ≡ record { processor = processor; kind = kind; next = next } }
{
    Served {
        processor,
        kind,
        next,
    }
}

/// Serves a message in the cycle at an instant, whose events put these at the inputs of top.
pub fn serve_message<M: AtomicModel, L: Ledger>(
    tables: &Tables,
    t: Time,
    inputs: &[(PortNo, Value)],
    message: Message,
    due: &mut Vec<Option<Time>>,
    leaves: &mut FlatLeaves<M>,
    mail: &mut Mail,
    steps: &mut Steps<L>,
) -> Result<(), OutOfMemory>
    requires { CanServeBy tables.now t
        (message_in message) (changing_of_mail mail.old leaves.old due.old.items) }
    ensures changes { OnOk result (ChangesBy tables.now t inputs.now (message_in message)
        (changing_of_mail mail.old leaves.old due.old.items)
        (changing_of_mail mail.new leaves.new due.new.items)) }
    ensures stays { StaysAs leaves.old leaves.new }
{
    match message {
        Message::Collect(to) => ask(tables, t, to, due, leaves, mail, steps),
        Message::Output(from, bag) => take_output(&tables.entries, from, bag, inputs, mail),
        Message::Transition(to, bag, woken) => {
            let brought = Brought { bag, woken };
            transit(tables, t, to, brought, due, leaves, mail, steps)
        }
        Message::Done(from, answer) => take_answer(&tables.entries, from, answer, mail),
    }
}

/// A processor is asked for its output.
fn ask<M: AtomicModel, L: Ledger>(
    tables: &Tables,
    t: Time,
    to: u32,
    due: &[Option<Time>],
    leaves: &mut FlatLeaves<M>,
    mail: &mut Mail,
    steps: &mut Steps<L>,
) -> Result<(), OutOfMemory>
    requires { CanAsk tables.now.entries.items to (changing_of_mail mail.old leaves.old due.now) }
    ensures asks { OnOk result (AsksAt tables.now.entries.items t to
        (changing_of_mail mail.old leaves.old due.now)
        (changing_of_mail mail.new leaves.new due.now)) }
    ensures stays { StaysAs leaves.old leaves.new }
{
    let entry = &tables.entries[to as usize];
    match entry.leaf {
        None => ask_all(&entry.children, mail),
        Some(leaf) => ask_leaf(to, leaf, t, due[leaf as usize], leaves, mail, steps),
    }
}

/// A processor has to move with a bag, which is kept.
fn transit<M: AtomicModel, L: Ledger>(
    tables: &Tables,
    t: Time,
    to: u32,
    brought: Brought,
    due: &mut Vec<Option<Time>>,
    leaves: &mut FlatLeaves<M>,
    mail: &mut Mail,
    steps: &mut Steps<L>,
) -> Result<(), OutOfMemory>
    requires { CanTransitBy tables.now t to brought.bag.items
        (changing_of_mail mail.old leaves.old due.old.items) }
    ensures transits { OnOk result (TransitsBy tables.now t to brought.bag.items brought.woken
        (changing_of_mail mail.old leaves.old due.old.items)
        (changing_of_mail mail.new leaves.new due.new.items)) }
    ensures stays { StaysAs leaves.old leaves.new }
{
    let entry = &tables.entries[to as usize];
    match entry.leaf {
        None => pass(tables, to, entry, brought.bag, leaves, mail),
        Some(leaf) => move_on(to, leaf, t, brought, due, leaves, mail, steps),
    }
}

/// A component passes a bag on to its children.
fn pass<M: AtomicModel>(
    tables: &Tables,
    to: u32,
    entry: &Entry,
    bag: Vec<(PortNo, Value)>,
    leaves: &FlatLeaves<M>,
    mail: &mut Mail,
) -> Result<(), OutOfMemory>
    requires passes { CanPass leaves.now.model tables.now.entries.items tables.now.spaces.items
        entry.now.children.items }
    requires kept { to < length mail.old.kept.items }
    ensures { OnOk result ((due : List (Option ℕ)) → PassesBy tables.now to bag.items entry.now
        (changing_of_mail mail.old leaves.now due) (changing_of_mail mail.new leaves.now due)) }
{
    pass_on(
        leaves.model(),
        &tables.entries,
        &tables.spaces,
        &entry.children,
        &bag,
        mail,
    )?;
    has_moved(&mut mail.kept, to, bag, Became::Stayed);
    Ok(())
}
