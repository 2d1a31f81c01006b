// What a line of a log shows of a group.
ghost use Rattle.std.specs.Prelude.{◌≡◌, ℕ, ◌<◌, [], ◌∷◌, Some, IfSome};
ghost use Rattle.std.specs.Option.{option_map};
ghost use Rattle.rule_tree.specs.Meaning.{coordinates};
ghost use Rattle.cell_grid.specs.Space.{cell_count};
ghost use Rattle.text_forms.specs.Frames as frames;
ghost use Rattle.drawlog_top.specs.LeafRead.{named_leaf, HasWholePlace};
ghost use Rattle.drawlog_top.specs.LineRead.{leaf_in, line_of};
ghost use Rattle.drawlog_top.specs.Seen.{shown_cell_list, what_line_shows, seen_as, seen_line, shows};

use crate::leaf_name::LeafName;
use crate::log_line::{LogLine, read_line};
use cell_grid::Grid;
use quantity::{Name, Place, Time, Value};

/// A cell of the group, and the value that it gave.
#[derive(Clone, Copy)]
pub(crate) struct CellValue {
    pub(crate) cell: u32,
    pub(crate) value: Value,
}

/// A line that is not refused: its time, and what a cell of the group gave in it, if one did.
#[derive(Clone, Copy)]
pub(crate) struct SeenLine {
    pub(crate) time: Time,
    pub(crate) given: Option<CellValue>,
}

/// What a line shows of a group of this name and space. None where the line is refused: it is off
/// the form of a log's lines, it is before the time of the line above it, or it is a Y line of the
/// group with coordinates of no cell of the space.
pub(crate) fn see_line(text: &[u8], before: Time, grid: &Grid, group: &Name) -> Option<SeenLine>
    ensures value { option_map seen_as result ≡ what_line_shows grid.now group.now before text.now }
    ensures inside { IfSome result (λ line. IfSome line.given (λ g. g.cell < cell_count grid.now)) }
{
    match read_line(text) {
        None => None,
        Some(line) => see(&line, before, grid, group),
    }
}

/// The same of a line that was read.
fn see(line: &LogLine<'_>, before: Time, grid: &Grid, group: &Name) -> Option<SeenLine>
    requires { HasWholePlace (leaf_in line.now) }
    ensures value { let read = frames.not_before before (Some (line_of line.now)) in
        option_map seen_as result ≡ seen_line grid.now group.now read }
    ensures inside { IfSome result (λ line. IfSome line.given (λ g. g.cell < cell_count grid.now)) }
{
    let time = line.time();
    if time.ms() < before.ms() {
        return None;
    }
    let given = given_in(line, grid, group)?;
    Some(SeenLine { time, given })
}

/// What a cell of the group gave in a line, if one did; None where the line is refused.
fn given_in(line: &LogLine<'_>, grid: &Grid, group: &Name) -> Option<Option<CellValue>>
    requires { HasWholePlace (leaf_in line.now) }
    ensures value { let line = line_of line.now in
        option_map (shown_cell_list (frames.line_time line)) result
        ≡ frames.shown_of grid.now group.now line }
    ensures inside { IfSome result (λ given. IfSome given (λ g. g.cell < cell_count grid.now)) }
{
    match line {
        LogLine::Y { leaf, value, .. } => given_by(leaf, *value, grid, group),
        _ => Some(None),
    }
}

/// The same of a leaf that gave this value.
fn given_by(
    leaf: &LeafName<'_>,
    value: Value,
    grid: &Grid,
    group: &Name,
) -> Option<Option<CellValue>>
    requires { HasWholePlace leaf.now }
    ensures value { (time : ℕ) → let shown = shows grid.now group.now time
        (named_leaf leaf.now) value in
        option_map (shown_cell_list time) result ≡ shown }
    ensures inside { IfSome result (λ given. IfSome given (λ g. g.cell < cell_count grid.now)) }
{
    if leaf.name != group.as_bytes() {
        return Some(None);
    }
    let cell = cell_of(leaf, grid)?;
    Some(Some(CellValue { cell, value }))
}

/// The cell of a leaf, where there are as many coordinates as the space has, and they lie in it. An
/// atomic component has none.
fn cell_of(leaf: &LeafName<'_>, grid: &Grid) -> Option<u32>
    requires { HasWholePlace leaf.now }
    ensures value { result ≡ frames.cell_of_coordinates grid.now (named_leaf leaf.now).at }
    ensures inside { IfSome result (λ cell. cell < cell_count grid.now) }
{
    match leaf.dims {
        2 => cell_at_two(leaf.place.row, leaf.place.column, grid),
        3 => cell_at_three(leaf.place, grid),
        _ => None,
    }
}

/// The cell at two coordinates.
fn cell_at_two(row: u32, column: u32, grid: &Grid) -> Option<u32>
    ensures value { result ≡ frames.cell_of_coordinates grid.now (row ∷ column ∷ []) }
    ensures inside { IfSome result (λ cell. cell < cell_count grid.now) }
{
    if grid.dims() != 2 {
        return None;
    }
    grid.index(Place {
        row,
        column,
        plane: 0,
    })
}

/// The cell at three coordinates.
fn cell_at_three(place: Place, grid: &Grid) -> Option<u32>
    ensures value { result ≡ frames.cell_of_coordinates grid.now (coordinates place) }
    ensures inside { IfSome result (λ cell. cell < cell_count grid.now) }
{
    if grid.dims() != 3 {
        return None;
    }
    grid.index(place)
}
