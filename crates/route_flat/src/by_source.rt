// The targets of each source, as lists by the source's number.
ghost use Rattle.std.specs.Prelude.{◌≡◌, ◌<◌, ◌++◌, ℕ, [], ◌∷◌, map, length, OnOk, slice_index_or, if◌then◌else◌};
ghost use Rattle.route_flat.specs.BySource.{PutsAt};

use model_leaves::{Source, Target};
use quantity::OutOfMemory;
use std::alloc::{AllocError, Global};

/// The targets of leaves, and those of inputs of top. A list reaches as far as there are targets.
#[derive(Drop)]
pub(crate) struct BySource {
    pub(crate) leaves: Vec<Vec<Target>>,
    pub(crate) tops: Vec<Vec<Target>>,
}

impl BySource {
    ghost use Rattle.model_leaves.specs.declared.path.Source.{Source};
    ghost use Rattle.model_leaves.specs.Numbered.{same_source};
    ghost use Rattle.route_flat.specs.BySource.{list_from};

    /// No targets.
    pub(crate) fn new(alloc: Global) -> BySource
        ensures { (from : Source) → list_from result from ≡ [] }
    {
        BySource {
            leaves: Vec::new(alloc),
            tops: Vec::new(alloc),
        }
    }

    /// One more target of a source, behind the others.
    pub(crate) fn put(
        &mut self,
        alloc: Global,
        from: Source,
        target: Target,
    ) -> Result<(), OutOfMemory>
        ensures { OnOk result ((other : Source) → list_from self.new other
            ≡ (if same_source other from then list_from self.old other ++ target ∷ []
            else list_from self.old other)) }
    {
        match from {
            Source::Leaf(leaf) => put_at(alloc, &mut self.leaves, leaf as usize, target),
            Source::TopIn(input) => put_at(alloc, &mut self.tops, input as usize, target),
        }
    }

    /// The targets of a source.
    pub(crate) fn targets(&self, from: Source) -> &[Target]
        ensures { result.now ≡ list_from self.now from }
    {
        match from {
            Source::Leaf(leaf) => list_at(&self.leaves, leaf as usize),
            Source::TopIn(input) => list_at(&self.tops, input as usize),
        }
    }
}

/// The list of a number, where there is one.
fn list_at(lists: &[Vec<Target>], number: usize) -> &[Target]
    ensures { result.now ≡ slice_index_or (map (λ v. v.items) lists.now) number [] }
{
    match lists.get(number) {
        Some(list) => list,
        None => &[],
    }
}

/// Appends a target to the list of a number.
fn put_at(
    alloc: Global,
    lists: &mut Vec<Vec<Target>>,
    number: usize,
    target: Target,
) -> Result<(), OutOfMemory>
    ensures { OnOk result (PutsAt number target
        (map (λ v. v.items) lists.old.items) (map (λ v. v.items) lists.new.items)) }
{
    reach(alloc, lists, number)?;
    push(&mut lists[number], target)
}

/// Appends lists of nothing until there is one of this number.
fn reach(alloc: Global, lists: &mut Vec<Vec<Target>>, number: usize) -> Result<(), OutOfMemory>
    ensures same { let old = map (λ v. v.items) lists.old.items in
        let new = map (λ v. v.items) lists.new.items in
        (k : ℕ) → slice_index_or new k [] ≡ slice_index_or old k [] }
    ensures reached { OnOk result (number < length lists.new.items) }
{
    while lists.len() <= number {
        lists.push(Vec::new(alloc)).map_err(AllocError::from)?;
    }
    Ok(())
}

fn push(list: &mut Vec<Target>, target: Target) -> Result<(), OutOfMemory>
    ensures { OnOk result (list.new.items ≡ list.old.items ++ target ∷ []) }
{
    list.push(target).map_err(AllocError::from)?;
    Ok(())
}
