// The files of one group, laid on its values.
ghost use Rattle.std.specs.Prelude.{◌≡◌, [], ◌∷◌, IfSome, IfOk, map, length, codes};
ghost use Rattle.std.specs.Option.{option_and_then, option_to_list, is_some};
ghost use Rattle.ma_lines.specs.Laws.{IsPlain, IsPlainSection};
ghost use Rattle.ma_lines.specs.InCode.{section_of};
ghost use Rattle.cell_grid.specs.Initial.{map_file, cells_file, with_map, with_cells};
ghost use Rattle.cell_grid.specs.Space.{cell_count};
ghost use Rattle.model_text.specs.InitialFiles.{file_at, files_of_group};
ghost use Rattle.model_text.specs.Spaces.{space_of};
ghost use Rattle.model_text.specs.Trees.{initial_of};
ghost use Rattle.model_walk.specs.Placed.{values_before_files};
ghost use Rattle.model_read.specs.Reading.{ReadsFiles};
ghost use Rattle.model_read.specs.Laid.{laid_at, named_files, named_read, IsRight};
ghost use Rattle.model_read.specs.Spaces.{section_at};

use crate::file::{plain_text, read_file};
use crate::group_space::GroupSpace;
use crate::refusal::ModelRefusal;
use cell_grid::{Grid, Initial, InitialRefusal};
use ma_lines::{Entry, Section};
use model_text::Kind;
use model_text::accepted::accepted_groups_have_a_value_for_each_cell;
use model_walk::entries::first_entry;
use room_edge::Room;
use std::alloc::Global;

/// The values of a group at the start, from those of its section: first the map file is laid on
/// them, and then the cells file.
pub(crate) fn group_values<R: Room>(
    alloc: Global,
    room: &mut R,
    group: &GroupSpace<'_>,
    before: Initial,
) -> Result<Initial, ModelRefusal>
    requires group { IsRight group.now }
    requires before { before ≡ values_before_files (section_of group.now.section.now) }
    ensures read { ReadsFiles (files_of_group (section_at group.now)) result
        (R.outside room.old) (R.outside room.new) }
    ensures values { IfSome (R.outside room.old).files (λ files. IfOk result (λ values. values
        ≡ initial_of files (section_at group.now))) }
    ensures length { IfOk result
        (λ values. length values ≡ cell_count (space_of (section_of group.now.section.now))) }
{
    accepted_groups_have_a_value_for_each_cell();
    let mapped = lay_map(alloc, room, group.section, &group.grid, before)?;
    lay_cells(alloc, room, group.section, &group.grid, mapped)
}

/// The values with those of the map file that a section names, where it names one.
fn lay_map<R: Room>(
    alloc: Global,
    room: &mut R,
    section: &Section,
    grid: &Grid,
    before: Initial,
) -> Result<Initial, ModelRefusal>
    requires plain { IsPlainSection (section_of section.now) }
    requires length { length before ≡ cell_count grid.now }
    ensures read { ReadsFiles (named_files (codes "initialmapvalue")
        (λ bytes. is_some (map_file grid.now bytes)) (section_of section.now)) result
        (R.outside room.old) (R.outside room.new) }
    ensures values { IfSome (R.outside room.old).files (λ files. IfOk result
        (λ values. values ≡ with_map before (named_read (map_file grid.now) files
        (codes "initialmapvalue") (section_of section.now)))) }
    ensures length { IfOk result (λ values. length values ≡ cell_count grid.now) }
{
    match first_entry(section, b"initialmapvalue") {
        None => Ok(before),
        Some(entry) => lay_map_file(alloc, room, entry, grid, before),
    }
}

/// The values with those of the map file that an entry names.
fn lay_map_file<R: Room>(
    alloc: Global,
    room: &mut R,
    entry: &Entry,
    grid: &Grid,
    before: Initial,
) -> Result<Initial, ModelRefusal>
    requires plain { IsPlain entry.now.value }
    requires length { length before ≡ cell_count grid.now }
    ensures read { ReadsFiles (file_at (λ bytes. is_some (map_file grid.now bytes)) entry.now ∷ [])
        result (R.outside room.old) (R.outside room.new) }
    ensures values { IfSome (R.outside room.old).files (λ files. IfOk result
        (λ values. values
        ≡ with_map before (option_and_then (map_file grid.now) (files entry.now.value)))) }
    ensures length { IfOk result (λ values. length values ≡ cell_count grid.now) }
{
    let name = plain_text(entry.value.as_bytes());
    let bytes = read_file(alloc, room, name, entry.line)?;
    laid(entry.line, before.map_file(&bytes, grid))
}

/// The values with those of the cells file that a section names, where it names one.
fn lay_cells<R: Room>(
    alloc: Global,
    room: &mut R,
    section: &Section,
    grid: &Grid,
    before: Initial,
) -> Result<Initial, ModelRefusal>
    requires plain { IsPlainSection (section_of section.now) }
    requires length { length before ≡ cell_count grid.now }
    ensures read { ReadsFiles (named_files (codes "initialcellsvalue")
        (λ bytes. is_some (cells_file grid.now bytes)) (section_of section.now)) result
        (R.outside room.old) (R.outside room.new) }
    ensures values { IfSome (R.outside room.old).files (λ files. IfOk result
        (λ values. values ≡ with_cells before (named_read (cells_file grid.now) files
        (codes "initialcellsvalue") (section_of section.now)))) }
    ensures length { IfOk result (λ values. length values ≡ cell_count grid.now) }
{
    match first_entry(section, b"initialcellsvalue") {
        None => Ok(before),
        Some(entry) => lay_cells_file(alloc, room, entry, grid, before),
    }
}

/// The values with those of the cells file that an entry names.
fn lay_cells_file<R: Room>(
    alloc: Global,
    room: &mut R,
    entry: &Entry,
    grid: &Grid,
    before: Initial,
) -> Result<Initial, ModelRefusal>
    requires plain { IsPlain entry.now.value }
    requires length { length before ≡ cell_count grid.now }
    ensures read { ReadsFiles (file_at (λ bytes. is_some (cells_file grid.now bytes)) entry.now
        ∷ [])
        result (R.outside room.old) (R.outside room.new) }
    ensures values { IfSome (R.outside room.old).files (λ files. IfOk result
        (λ values. values
        ≡ with_cells before (option_and_then (cells_file grid.now) (files entry.now.value)))) }
    ensures length { IfOk result (λ values. length values ≡ cell_count grid.now) }
{
    let name = plain_text(entry.value.as_bytes());
    let bytes = read_file(alloc, room, name, entry.line)?;
    laid(entry.line, before.cells_file(&bytes, grid))
}

/// The values, or the refusal of the line that names their file.
fn laid(line: u32, values: Result<Initial, InitialRefusal>) -> Result<Initial, ModelRefusal>
    ensures { result ≡ laid_at line values }
{
    match values {
        Ok(values) => Ok(values),
        Err(_) => Err(ModelRefusal::Refused {
            line,
            kind: Kind::BadInitial,
        }),
    }
}
