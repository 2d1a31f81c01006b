// The values of groups at the start, from their files.
ghost use Rattle.std.specs.Prelude.{◌≡◌, ◌∷◌, IfSome, IfOk, OnOk, List, map, length, drop};
ghost use Rattle.std.specs.List.{All, AllByRecursion, flat_map};
ghost use Rattle.quantity.specs.declared.value.Value.{Value};
ghost use Rattle.ma_lines.specs.Laws.{IsPlainSection};
ghost use Rattle.cell_grid.specs.Space.{cell_count};
ghost use Rattle.model_text.specs.Walk as W;
ghost use Rattle.model_text.specs.Spaces.{space_of};
ghost use Rattle.model_text.specs.Trees.{initial_of};
ghost use Rattle.model_text.specs.InitialFiles.{initial_files, files_of_group};
ghost use Rattle.model_walk.specs.Placed.{values_before_files};
ghost use Rattle.model_read.specs.Reading.{ReadsFiles};
ghost use Rattle.model_read.specs.Spaces.{kept_space, said_space, sections_in, section_at};
ghost use Rattle.model_read.specs.Laid.{IsRight, Adds};

use crate::group_space::GroupSpace;
use crate::lay::group_values;
use crate::refusal::ModelRefusal;
use cell_grid::Initial;
use ma_lines::Sections;
use room_edge::Room;
use std::alloc::{AllocError, Global};
use std::collections::VecDeque;

/// The values of each group at the start, in declared order: those of its section, with its map
/// file and then its cells file laid on them. A file is looked for only where none before it stops
/// the reading.
pub(crate) fn initial_values<R: Room>(
    alloc: Global,
    room: &mut R,
    sections: &Sections,
    groups: &[GroupSpace<'_>],
    before: Vec<Initial>,
) -> Result<Vec<Initial>, ModelRefusal>
    requires plain { All IsPlainSection sections.now }
    requires groups { map kept_space groups.now ≡ map said_space (W.groups sections.now) }
    requires before { before.items ≡ map values_before_files (W.groups sections.now) }
    ensures read { ReadsFiles (initial_files sections.now) result
        (R.outside room.old) (R.outside room.new) }
    ensures values { IfSome (R.outside room.old).files (λ files. IfOk result
        (λ values. values.items ≡ map (initial_of files) (W.groups sections.now))) }
    ensures sizes { IfOk result (λ values. map (λ v. length v) values.items
        ≡ map (λ s. cell_count (space_of s)) (W.groups sections.now)) }
{
    // For the proof: only the clauses speak of it.
    let _sections = sections;
    lay_all(alloc, room, groups, before)
}

/// The same for groups whose sections are plain, with their spaces.
fn lay_all<R: Room>(
    alloc: Global,
    room: &mut R,
    groups: &[GroupSpace<'_>],
    before: Vec<Initial>,
) -> Result<Vec<Initial>, ModelRefusal>
    requires groups { AllByRecursion IsRight groups.now }
    requires before { before.items ≡ map values_before_files (sections_in groups.now) }
    ensures read { ReadsFiles (flat_map files_of_group (sections_in groups.now)) result
        (R.outside room.old) (R.outside room.new) }
    ensures values { IfSome (R.outside room.old).files (λ files. IfOk result
        (λ values. values.items ≡ map (initial_of files) (sections_in groups.now))) }
    ensures sizes { IfOk result (λ values. map (λ v. length v) values.items
        ≡ map (λ s. cell_count (space_of s)) (sections_in groups.now)) }
{
    let mut left = VecDeque::from(before);
    let mut laid: Vec<Initial> = Vec::new(alloc);
    for group in groups {
        lay_next(alloc, room, group, &mut left, &mut laid)?;
    }
    Ok(laid)
}

/// Takes the first of the values that are left, lays the group's files on them, and puts them
/// behind the others.
fn lay_next<R: Room>(
    alloc: Global,
    room: &mut R,
    group: &GroupSpace<'_>,
    left: &mut VecDeque<Initial>,
    laid: &mut Vec<Initial>,
) -> Result<(), ModelRefusal>
    requires group { IsRight group.now }
    requires left { (rest : List (List Value))
        × (left.old.items ≡ values_before_files (section_at group.now) ∷ rest) }
    ensures read { ReadsFiles (files_of_group (section_at group.now)) result
        (R.outside room.old) (R.outside room.new) }
    ensures left { OnOk result (left.new.items ≡ drop 1 left.old.items) }
    ensures laid { OnOk result (Adds (R.outside room.old).files
        (section_at group.now) laid.old.items laid.new.items) }
{
    let Some(before) = left.pop_front() else {
        unreachable!()
    };
    let values = group_values(alloc, room, group, before)?;
    laid.push(values).map_err(AllocError::from)?;
    Ok(())
}
