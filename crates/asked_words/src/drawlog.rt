// What the words of the drawing program ask for.
ghost use Rattle.std.specs.Prelude.{◌≡◌, ◌<◌, ◌≤◌, ◌==◌, IfOk, IfSome, None, map};
ghost use Rattle.std.specs.List.{slice_split};
ghost use Rattle.std.specs.Option.{option_map};
ghost use Rattle.std.specs.String.{string_bytes};
ghost use Rattle.cell_grid.specs.declared.grid.Border.TheVariants.{NoWrapped};
ghost use Rattle.quantity.specs.Written.{for_some};
ghost use Rattle.answer_model.specs.Asked as A;
ghost use Rattle.answer_model.specs.AskedDrawing as D;
ghost use Rattle.asked_words.specs.Shown.{text_of_name, asked_drawing_of, CanBeDrawn};
ghost use Rattle.asked_words.specs.Drafts.{draft_of, IsBounded};
ghost use Rattle.asked_words.specs.Spaces.{space_sized, drawing_with};

use crate::asked::AskedDrawing;
use crate::draft::Draft;
use crate::read::drawlog_draft;
use crate::values::{group_in, number};
use cell_grid::{Border, Grid};
use quantity::{Name, OutOfMemory};
use std::alloc::{AllocError, Global};

/// The pieces of a text between its commas.
fn pieces<'a>(alloc: Global, text: &'a str) -> Result<Vec<&'a str>, AllocError>
    ensures { IfOk result (λ parts. map (λ p. p.now) parts.items
        ≡ slice_split (λ c. c == 44) text.now) }
{
    text.split(',').collect(alloc)
}

/// A space of these sizes, where it may have so many cells.
fn space_if(rows: u32, columns: u32, planes: Option<u32>) -> Option<Grid>
    requires rows { 0 < rows }
    requires columns { 0 < columns }
    ensures { result ≡ D.space_if
        (record { rows = rows; columns = columns; planes = planes; border = NoWrapped }) }
{
    Grid::new(rows, columns, planes, Border::NoWrapped)
}

/// A space of these rows, columns and planes.
#[tactic(auto, unfolding(crate::specs::Spaces::space_sized))]
fn space_with(rows: &str, columns: &str, planes: Option<u32>) -> Option<Grid>
    ensures { result ≡ space_sized rows.now columns.now planes }
{
    let rows = number(1, 9_999_999, rows)?;
    let columns = number(1, 9_999_999, columns)?;
    space_if(rows, columns, planes)
}

/// Two or three sizes of a space.
fn space_of(parts: &[&str]) -> Option<Grid>
    ensures { result ≡ D.space_of_words (map (λ p. p.now) parts.now) }
{
    match parts {
        [rows, columns] => space_with(rows, columns, None),
        [rows, columns, planes] => {
            let planes = number(1, 9_999_999, planes)?;
            space_with(rows, columns, Some(planes))
        }
        _ => None,
    }
}

/// The space of two or three sizes with commas between them.
fn space_in(alloc: Global, text: &str) -> Result<Option<Grid>, OutOfMemory>
    ensures { IfOk result (λ space. space ≡ D.space_in text.now) }
{
    let parts = pieces(alloc, text)?;
    Ok(space_of(&parts))
}

/// What is drawn so, where the space has the plane.
fn drawn_so<'a>(
    log: &'a str,
    group: Name,
    space: Grid,
    draft: &Draft<'_>,
) -> Option<AskedDrawing<'a>>
    requires { IsBounded draft.now }
    ensures value { option_map asked_drawing_of result
        ≡ drawing_with log.entry.now group space (draft_of draft.now) }
    ensures bounds { IfSome result CanBeDrawn }
{
    if draft.plane < space.planes() {
        Some(AskedDrawing {
            log,
            group,
            space,
            plane: draft.plane,
            width: draft.width,
            decimals: draft.decimals,
        })
    } else {
        None
    }
}

/// The group that is given.
fn group_given(alloc: Global, text: Option<&str>) -> Result<Option<Name>, OutOfMemory>
    ensures { IfOk result (λ name. name ≡ for_some (text_of_name text.entry) A.group_in) }
{
    match text {
        None => Ok(None),
        Some(text) => group_in(alloc, text),
    }
}

/// The space that is given.
fn space_given(alloc: Global, text: Option<&str>) -> Result<Option<Grid>, OutOfMemory>
    ensures { IfOk result (λ space. space ≡ for_some (text_of_name text.entry) D.space_in) }
{
    match text {
        None => Ok(None),
        Some(text) => space_in(alloc, text),
    }
}

/// What a draft asks to be drawn, where it has a log, a group and a space.
fn drawing_of<'a>(alloc: Global, draft: &Draft<'a>) -> Result<Option<AskedDrawing<'a>>, OutOfMemory>
    requires { IsBounded draft.now }
    ensures value { IfOk result
        (λ a. option_map asked_drawing_of a ≡ D.drawing_in_draft (draft_of draft.now)) }
    ensures bounds { IfOk result (λ a. IfSome a CanBeDrawn) }
{
    let Some(log) = draft.log else {
        return Ok(None);
    };
    let Some(group) = group_given(alloc, draft.group)? else {
        return Ok(None);
    };
    let Some(space) = space_given(alloc, draft.space)? else {
        return Ok(None);
    };
    Ok(drawn_so(log, group, space, draft))
}

/// What the words ask for, of which the first is the program's name; None where they are refused.
pub fn read_drawing_words<'a>(
    alloc: Global,
    words: &'a [String],
) -> Result<Option<AskedDrawing<'a>>, OutOfMemory>
    ensures value { IfOk result (λ a. option_map asked_drawing_of a
        ≡ D.asked_drawing (map string_bytes words.entry.now)) }
    ensures bounds { IfOk result (λ a. IfSome a CanBeDrawn) }
{
    match drawlog_draft(alloc, words) {
        Ok(Some(draft)) => drawing_of(alloc, &draft),
        Ok(None) => Ok(None),
        Err(OutOfMemory) => Err(OutOfMemory),
    }
}
