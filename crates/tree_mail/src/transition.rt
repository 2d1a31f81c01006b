// Transition messages to components.
ghost use Rattle.std.specs.Prelude.{◌≡◌, ◌<◌, ◌≤◌, [], ◌∷◌, Option, length, OnOk, IfSome};
ghost use Rattle.cell_grid.specs.Space.{cell_count};
ghost use Rattle.model_leaves.specs.Leaves.{IsLeafOf};
ghost use Rattle.served_tree.specs.Service.{transition, cell_gave_output as has_output};
ghost use Rattle.tree_mail.specs.Notes.{notes_of, all_heard};
ghost use Rattle.tree_mail.specs.Puts.{ins_read, handed_on, woken_in, handed_to_cells, PutsBy, PassesOn};
ghost use Rattle.tree_mail.specs.Puts.{CanPass};

use crate::kept::{Kept, given_by};
use crate::lists::read_rows;
use crate::mail::Mail;
use crate::message::Message;
use crate::tables::{GroupSpace, group_of, rows_into, space_in};
use atomic_face::PortNo;
use model_leaves::Model as Tree;
use quantity::{OutOfMemory, Value};
use tree_tables::Entry;

/// Each child of a component takes what links bring, where this bag stands at the component's
/// inputs; a cell also has whether it is woken.
pub fn pass_on(
    model: &Tree,
    entries: &[Entry],
    spaces: &[GroupSpace],
    children: &[u32],
    bag: &[(PortNo, Value)],
    mail: &mut Mail,
) -> Result<(), OutOfMemory>
    requires { CanPass model.now entries.now spaces.now children.now }
    ensures puts { OnOk result
        (PassesOn model.now entries.now spaces.now children.now bag.now mail.old mail.new) }
    ensures kept { mail.new.kept ≡ mail.old.kept }
{
    let group = group_of(model, entries, children);
    match space_in(spaces, group) {
        None => hand_over(entries, children, bag, mail),
        Some(space) => hand_to_cells(entries, children, space, bag, mail),
    }
}

/// Each child takes what links bring.
fn hand_over(
    entries: &[Entry],
    children: &[u32],
    bag: &[(PortNo, Value)],
    mail: &mut Mail,
) -> Result<(), OutOfMemory>
    ensures puts { OnOk result
        (PutsBy (λ notes. handed_on entries.now notes children.now bag.now) mail.old mail.new) }
    ensures kept { mail.new.kept ≡ mail.old.kept }
{
    for child in children {
        hand_to(entries, *child, false, bag, mail)?;
    }
    Ok(())
}

/// The same for each cell of a group, with whether it is woken.
fn hand_to_cells(
    entries: &[Entry],
    children: &[u32],
    space: &GroupSpace,
    bag: &[(PortNo, Value)],
    mail: &mut Mail,
) -> Result<(), OutOfMemory>
    requires { length children.now ≤ cell_count space.now.grid }
    ensures puts { OnOk result (PutsBy (λ notes. handed_to_cells entries.now notes children.now
        space.now bag.now) mail.old mail.new) }
    ensures kept { mail.new.kept ≡ mail.old.kept }
{
    for (i, child) in children.iter().enumerate() {
        let cell = u32::try_from(i).map_err(|_| OutOfMemory)?;
        let woken = is_woken(space, children, &mail.kept, cell);
        hand_to(entries, *child, woken, bag, mail)?;
    }
    Ok(())
}

/// One child takes what links bring.
fn hand_to(
    entries: &[Entry],
    child: u32,
    woken: bool,
    bag: &[(PortNo, Value)],
    mail: &mut Mail,
) -> Result<(), OutOfMemory>
    ensures puts { OnOk result (PutsBy (λ notes. transition child
        (ins_read entries.now notes bag.now child) woken ∷ []) mail.old mail.new) }
    ensures kept { mail.new.kept ≡ mail.old.kept }
{
    let alloc = *mail.kept.allocator();
    let takes = read_rows(alloc, bag, &mail.kept, rows_into(entries, child))?;
    mail.put(Message::Transition(child, takes, woken))
}

/// Whether one of a cell's offsets leads to a cell that gave output.
fn is_woken(space: &GroupSpace, children: &[u32], kept: &[Kept], cell: u32) -> bool
    requires { cell < cell_count space.now.grid }
    ensures { result ≡ woken_in (notes_of kept.now) children.now space.now.grid
        space.now.offsets.items cell }
{
    let place = space.grid.position(cell);
    for offset in &space.offsets {
        let near = space.grid.neighbour_at(place, *offset);
        if gave_output(children, kept, near) {
            return true;
        }
    }
    false
}

/// Whether a cell that is there gave output.
fn gave_output(children: &[u32], kept: &[Kept], cell: Option<u32>) -> bool
    ensures { result ≡ has_output (all_heard (notes_of kept.now)) children.now cell }
{
    let Some(cell) = cell else {
        return false;
    };
    match children.get(cell as usize) {
        None => false,
        Some(processor) => !given_by(kept, *processor).is_empty(),
    }
}
