// Collect and output messages.
ghost use Rattle.std.specs.Prelude.{◌≡◌, ◌<◌, ◌≤◌, false, [], ◌∷◌, map, length, IfOk, OnOk};
ghost use Rattle.atomic_face.specs.Classes.{is_at};
ghost use Rattle.run_model.specs.Cycle.{leaf_next};
ghost use Rattle.sparse_cycle.specs.Sparse.{leaf_of};
ghost use Rattle.served_tree.specs.Service.{collect, output, transition};
ghost use Rattle.tree_mail.specs.Notes.{notes_of, left_at, left_noted};
ghost use Rattle.tree_mail.specs.Puts.{Puts, outs_read, component_gives, component_gave, PutsBy, NotesBy, puts_given, notes_given};
ghost use Rattle.tree_messages.specs.Changes.{leaf_gives, leaves_asked, gives_at};
ghost use Rattle.tree_messages.specs.Ready.{IsAwaited};

use atomic_face::{AtomicModel, PortNo};
use cell_engine::Steps;
use quantity::{OutOfMemory, Time, Value};
use run_leaves::FlatLeaves;
use std::alloc::Global;
use std::sync::ledger::Ledger;
use tree_mail::kept::{has_given, one_less, wait_for};
use tree_mail::lists::read_rows;
use tree_mail::mail::Mail;
use tree_mail::message::Message;
use tree_mail::tables::parent_in;
use tree_tables::Entry;

/// Each child is asked for its output.
pub(crate) fn ask_all(children: &[u32], mail: &mut Mail) -> Result<(), OutOfMemory>
    ensures puts { OnOk result (Puts mail.old.waiting mail.new.waiting (map collect children.now)) }
    ensures kept { mail.new.kept ≡ mail.old.kept }
{
    for child in children {
        mail.put(Message::Collect(*child))?;
    }
    Ok(())
}

/// Whether a leaf that is due then is due at the instant.
pub(crate) fn is_due(due: Option<Time>, t: Time) -> bool
    ensures { result ≡ is_at t due }
{
    match due {
        None => false,
        Some(time) => time.ms() == t.ms(),
    }
}

/// A leaf is asked: one that is due gives its output, and another gives nothing.
pub(crate) fn ask_leaf<M: AtomicModel, L: Ledger>(
    processor: u32,
    leaf: u32,
    t: Time,
    due: Option<Time>,
    leaves: &mut FlatLeaves<M>,
    mail: &mut Mail,
    steps: &mut Steps<L>,
) -> Result<(), OutOfMemory>
    requires { due ≡ leaf_next (leaf_of leaves.old.states leaf) }
    ensures puts { OnOk result (Puts mail.old.waiting mail.new.waiting
        (output processor (gives_at t leaves.old leaf) ∷ [])) }
    ensures kept { mail.new.kept ≡ mail.old.kept }
    ensures leaves { leaves.new ≡ leaves_asked t leaf leaves.old }
{
    let given = emit_leaf(*mail.kept.allocator(), leaf, t, due, leaves, steps)?;
    mail.put(Message::Output(processor, given))
}

/// What a leaf gives.
fn emit_leaf<M: AtomicModel, L: Ledger>(
    alloc: Global,
    leaf: u32,
    t: Time,
    due: Option<Time>,
    leaves: &mut FlatLeaves<M>,
    steps: &mut Steps<L>,
) -> Result<Vec<(PortNo, Value)>, OutOfMemory>
    requires { due ≡ leaf_next (leaf_of leaves.old.states leaf) }
    ensures given { IfOk result
        (λ bag. bag.items ≡ leaf_gives t (leaf_of leaves.old.states leaf)) }
    ensures leaves { leaves.new ≡ leaves_asked t leaf leaves.old }
{
    let mut given = Vec::new(alloc);
    if !is_due(due, t) {
        return Ok(given);
    }
    leaves.emit_leaf(leaf, t, &mut given, steps)?;
    Ok(given)
}

/// A processor has given: its parent keeps it and, once all children have given, gives what its
/// links bring; from top it goes to the root, and top takes what the events of the instant put at
/// its inputs.
pub(crate) fn take_output(
    entries: &[Entry],
    from: u32,
    bag: Vec<(PortNo, Value)>,
    inputs: &[(PortNo, Value)],
    mail: &mut Mail,
) -> Result<(), OutOfMemory>
    requires from { from < length mail.old.kept.items }
    requires waits { IsAwaited entries.now from (notes_of mail.old.kept.items) }
    ensures puts { OnOk result
        (PutsBy (puts_given entries.now inputs.now from bag.items) mail.old mail.new) }
    ensures notes { OnOk result
        (NotesBy (notes_given entries.now from bag.items) mail.old mail.new) }
{
    has_given(&mut mail.kept, from, bag);
    let parent = parent_in(entries, from);
    match entries.get(parent as usize) {
        None => turn(inputs, mail),
        Some(entry) => count_given(parent, entry, mail),
    }
}

/// The root has what top gave: top takes this bag.
fn turn(inputs: &[(PortNo, Value)], mail: &mut Mail) -> Result<(), OutOfMemory>
    ensures puts { OnOk result (Puts mail.old.waiting mail.new.waiting
        (transition 0 inputs.now false ∷ [])) }
    ensures kept { mail.new.kept ≡ mail.old.kept }
{
    let bag = Vec::from_slice(*mail.kept.allocator(), inputs)?;
    mail.put(Message::Transition(0, bag, false))
}

/// One more child of a component has given. Once all have, the component gives.
fn count_given(component: u32, entry: &Entry, mail: &mut Mail) -> Result<(), OutOfMemory>
    requires { 1 ≤ left_at (notes_of mail.old.kept.items) component }
    ensures puts { OnOk result (PutsBy (component_gives component entry.now) mail.old mail.new) }
    ensures notes { OnOk result (NotesBy (component_gave component entry.now) mail.old mail.new) }
{
    if one_less(&mut mail.kept, component) {
        return give_on(component, entry, mail);
    }
    Ok(())
}

/// A component whose children have all given gives what its links bring. They have still to answer.
fn give_on(component: u32, entry: &Entry, mail: &mut Mail) -> Result<(), OutOfMemory>
    requires { component < length mail.old.kept.items }
    ensures puts { OnOk result
        (PutsBy (λ notes. output component (outs_read notes entry.now) ∷ []) mail.old mail.new) }
    ensures notes { OnOk result
        (NotesBy (left_noted component (length entry.now.children.items)) mail.old mail.new) }
{
    let given = read_rows(*mail.kept.allocator(), &[], &mail.kept, &entry.outs)?;
    wait_for(&mut mail.kept, component, entry.children.len());
    mail.put(Message::Output(component, given))
}
