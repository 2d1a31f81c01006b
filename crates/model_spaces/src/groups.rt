// Groups, one after another.
ghost use Rattle.std.specs.Prelude.{◌≡◌, ◌∷◌, ◌++◌, [], Some, None, Err, map, IfOk, OnOk};
ghost use Rattle.std.specs.List.{filter, flat_map, AllByRecursion};
ghost use Rattle.model_text.specs.Keyed as K;
ghost use Rattle.model_text.specs.Spaces as S;
ghost use Rattle.model_text.specs.Walk as W;
ghost use Rattle.model_walk.specs.LeastOf.{IsLeastOf};
ghost use Rattle.model_walk.specs.Met.{met_of};
ghost use Rattle.model_walk.specs.Placed.{plain_group, placed_of, values_before_files};
ghost use Rattle.model_walk.specs.Shown.{refusal_of};
ghost use Rattle.model_walk.specs.Met.{sections_at};
ghost use Rattle.model_spaces.specs.Right.{CanBeRead, SaysGroups};

use crate::group::read_group;
use cell_grid::Initial;
use model_walk::entries::is_group;
use model_walk::least::least;
use model_walk::{PlacedGroup, ReadSection, Refused, Stop, Walked};
use quantity::OutOfMemory;
use std::alloc::{AllocError, Global};

/// The sections of groups, in declared order.
#[tactic(auto, using(crate::proofs::Whole::groups_more))]
pub(crate) fn groups<'b, 'a>(
    alloc: Global,
    walked: &Walked<'b, 'a>,
) -> Result<Vec<&'b ReadSection<'a>>, OutOfMemory>
    ensures { IfOk result (λ found. sections_at found.items
        ≡ filter W.is_group (met_of walked.now).sections) }
{
    let mut found = Vec::new(alloc);
    for section in &walked.sections {
        if is_group(section.section()) {
            found.push(*section).map_err(AllocError::from)?;
        }
    }
    Ok(found)
}

/// The groups in declared order, and beside them the values of `initialvalue` and of the rows,
/// which files are laid on later.
#[derive(Drop)]
pub struct Spaces<'a> {
    pub groups: Vec<PlacedGroup<'a>>,
    pub values: Vec<Initial>,
}

/// What the sections of these groups say. Refused is the least refusal of all their spaces.
pub(crate) fn read_groups<'a>(
    alloc: Global,
    groups: &[&ReadSection<'a>],
) -> Result<Spaces<'a>, Stop>
    requires { AllByRecursion CanBeRead (sections_at groups.now) }
    ensures right { OnOk result (K.least_refusal (flat_map S.of_space (sections_at groups.now))
        ≡ None) }
    ensures groups { IfOk result (SaysGroups (sections_at groups.now)) }
    ensures refused { (why : _) → result ≡ Err (Stop.Refused why)
        → K.least_refusal (flat_map S.of_space (sections_at groups.now)) ≡ Some (refusal_of why) }
{
    let mut first = None;
    let mut spaces = Spaces {
        groups: Vec::with_capacity(alloc, groups.len())?,
        values: Vec::with_capacity(alloc, groups.len())?,
    };
    for section in groups {
        let why = add_space(alloc, section, &mut spaces)?;
        first = least(first, why);
    }
    match first {
        None => Ok(spaces),
        Some(why) => Err(Stop::Refused(why)),
    }
}

/// Adds what the section of a group says, unless its space is refused; gives the least refusal.
fn add_space<'a>(
    alloc: Global,
    section: &ReadSection<'a>,
    spaces: &mut Spaces<'a>,
) -> Result<Option<Refused>, OutOfMemory>
    requires { CanBeRead section.now }
    ensures refused { IfOk result (IsLeastOf (S.of_space section.now)) }
    ensures groups { OnOk result (K.least_refusal (S.of_space section.now) ≡ None
        → map plain_group spaces.new.groups.items ≡ map plain_group spaces.old.groups.items
        ++ placed_of section.now ∷ []) }
    ensures values { OnOk result (K.least_refusal (S.of_space section.now) ≡ None
        → spaces.new.values.items ≡ spaces.old.values.items
        ++ values_before_files section.now ∷ []) }
{
    match read_group(alloc, section) {
        Ok((group, values)) => {
            spaces.groups.push(group).map_err(AllocError::from)?;
            spaces.values.push(values).map_err(AllocError::from)?;
            Ok(None)
        }
        Err(Stop::Refused(why)) => Ok(Some(why)),
        Err(Stop::Memory) => Err(OutOfMemory),
    }
}
