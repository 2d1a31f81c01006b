// What a served run has of its model: the processors in tables, and the space of each group.
ghost use Rattle.std.specs.Prelude.{◌≡◌, ◌<◌, length, map, slice_get, IfOk, IfSome};
ghost use Rattle.std.specs.Option.{option_map};
ghost use Rattle.model_tree.specs.Tree.{groups};
ghost use Rattle.model_leaves.specs.Models.{tree_of};
ghost use Rattle.model_leaves.specs.Leaves.{OfTree, IsLeafOf, no_settings};
ghost use Rattle.tree_mail.specs.Mail.{parent_at};
ghost use Rattle.tree_mail.specs.Puts.{ins_at, first_leaf, IsGroupOf, space_at};
ghost use Rattle.tree_mail.specs.Tabled.{IsSpaceOf, AreSpacesOf, AreTables};
ghost use Rattle.tree_tables.specs.Stations.{row_of};

use cell_grid::Grid;
use model_leaves::{LeafAt, Model as Tree};
use quantity::{Offset, OutOfMemory};
use std::alloc::{AllocError, Global};
use tree_tables::{Entry, Ref, tables_of};

/// The space of a group, and the offsets of its cells.
#[derive(Drop)]
pub struct GroupSpace {
    pub grid: Grid,
    pub offsets: Vec<Offset>,
}

/// The processors of a model by their numbers, how many there are, and the spaces of its groups by
/// theirs.
#[derive(Drop)]
pub struct Tables {
    pub entries: Vec<Entry>,
    pub count: u32,
    pub spaces: Vec<GroupSpace>,
}

impl Tables {
    /// Those of a model.
    pub fn new(alloc: Global, model: &Tree) -> Result<Tables, OutOfMemory>
        ensures { IfOk result (λ tables. OfTree model.now (λ t. AreTables t tables)) }
    {
        let entries = tables_of(alloc, model)?;
        let count = u32::try_from(entries.len()).map_err(|_| OutOfMemory)?;
        let spaces = spaces_of(alloc, model)?;
        Ok(Tables {
            entries,
            count,
            spaces,
        })
    }
}

/// The spaces of all groups.
fn spaces_of(alloc: Global, model: &Tree) -> Result<Vec<GroupSpace>, OutOfMemory>
    ensures { IfOk result
        (λ spaces. OfTree model.now (λ t. AreSpacesOf (groups t) spaces.items)) }
{
    let mut spaces = Vec::new(alloc);
    for number in 0..model.groups() {
        let space = space_of(alloc, model, number)?;
        spaces.push(space).map_err(AllocError::from)?;
    }
    Ok(spaces)
}

/// The space of one group.
fn space_of(alloc: Global, model: &Tree, number: u32) -> Result<GroupSpace, OutOfMemory>
    requires { number < length (groups (tree_of model.now no_settings)) }
    ensures { IfOk result
        (λ space. OfTree model.now (λ t. IsSpaceOf (slice_get (groups t) number) space)) }
{
    let group = model.group(number);
    let offsets = Vec::from_slice(alloc, &group.offsets)?;
    Ok(GroupSpace {
        grid: group.grid,
        offsets,
    })
}

/// The number of the parent of a processor, 0 where it isn't there.
pub fn parent_in(entries: &[Entry], processor: u32) -> u32
    ensures { result ≡ parent_at entries.now processor }
{
    match entries.get(processor as usize) {
        None => 0,
        Some(entry) => entry.parent,
    }
}

/// The rows at the input ports of a processor, none where it isn't there.
pub(crate) fn rows_into(entries: &[Entry], processor: u32) -> &[Vec<Ref>]
    ensures { map row_of result.now ≡ ins_at entries.now processor }
{
    match entries.get(processor as usize) {
        None => &[],
        Some(entry) => &entry.ins,
    }
}

/// The number of the group whose cells these processors are, if they are cells.
pub(crate) fn group_of(model: &Tree, entries: &[Entry], children: &[u32]) -> Option<u32>
    requires { IfSome (first_leaf entries.now children.now) (IsLeafOf model.now) }
    ensures { IsGroupOf model.now (first_leaf entries.now children.now) result }
{
    match leaf_of_first(entries, children) {
        None => None,
        Some(leaf) => match model.leaf_at(leaf) {
            LeafAt::Atomic(_) => None,
            LeafAt::Cell { group, cell: _ } => Some(group),
        },
    }
}

/// The leaf that the first of these processors is, if it is one.
fn leaf_of_first(entries: &[Entry], children: &[u32]) -> Option<u32>
    ensures { result ≡ first_leaf entries.now children.now }
{
    let first = children.first()?;
    let entry = entries.get(*first as usize)?;
    entry.leaf
}

/// The space of a group of this number, if there is one.
pub(crate) fn space_in(spaces: &[GroupSpace], group: Option<u32>) -> Option<&GroupSpace>
    ensures { option_map (λ s. s.now) result ≡ space_at spaces.now group }
{
    match group {
        None => None,
        Some(number) => spaces.get(number as usize),
    }
}
