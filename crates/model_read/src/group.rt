// The group that is drawn, found by its name.
ghost use Rattle.std.specs.Prelude.{◌≡◌};
ghost use Rattle.model_leaves.specs.Leaves.{OfTree, AtLeaf, IsLeafOf};
ghost use Rattle.asked_words.specs.Group.{IsGroup, IsDrawn};
ghost use Rattle.model_read.specs.Group.{Looks, IsPassed, StillPassed};
ghost use Rattle.model_read.specs.Read.{drawing_of};

use asked_words::{FramesFile, GroupAt};
use model_leaves::{LeafAt, Model};
use quantity::Name;

/// The group that is looked for, or the number of the last group that was passed.
#[derive(Clone, Copy)]
pub(crate) enum Looked {
    Here(GroupAt),
    Other(Option<u32>),
}

/// The group that is drawn, where there are to be frames.
pub(crate) fn drawn_in(model: &Model, frames: Option<&FramesFile<'_>>) -> Option<GroupAt>
    ensures { OfTree model.now (λ tree. IsDrawn (drawing_of frames.entry) result tree) }
{
    match frames {
        None => None,
        Some(frames) => group_named(model, &frames.group),
    }
}

/// The group of this name.
fn group_named(model: &Model, name: &Name) -> Option<GroupAt>
    ensures { OfTree model.now (λ tree. IsGroup name.now result tree) }
{
    let mut passed: Option<u32> = None;
    for leaf in 0..model.leaves() {
        match look(model, leaf, name, passed) {
            Looked::Here(group) => return Some(group),
            Looked::Other(last) => passed = last,
        }
    }
    None
}

/// Whether a leaf is a cell of the group of this name. A group is looked for by its number once,
/// since its cells stand one after another.
fn look(model: &Model, leaf: u32, name: &Name, passed: Option<u32>) -> Looked
    requires leaf { IsLeafOf model.now leaf }
    requires passed { IsPassed model.now name.now passed }
    ensures looks { OfTree model.now (λ tree. Looks name.now result tree leaf) }
    ensures passed { StillPassed model.now name.now result }
{
    let LeafAt::Cell { group, cell } = model.leaf_at(leaf) else {
        return Looked::Other(passed);
    };
    if passed == Some(group) {
        return Looked::Other(passed);
    }
    let found = model.group(group);
    if found.name.as_bytes() != name.as_bytes() {
        return Looked::Other(Some(group));
    }
    Looked::Here(GroupAt {
        number: group,
        first: leaf - cell,
    })
}
