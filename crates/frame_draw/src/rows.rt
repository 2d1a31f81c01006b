// The rows of a frame. A refusal may leave more behind what was there.
ghost use Rattle.std.specs.Prelude.{◌≡◌, ◌<◌, ◌++◌, length, take, None, IfSome, OnOk};
ghost use Rattle.cell_grid.specs.Space.{number_of, plane_count};
ghost use Rattle.text_forms.specs.Frames.{row_text};
ghost use Rattle.frame_draw.specs.Drawing.{value_of_cell};
ghost use Rattle.frame_draw.specs.Knowing.{AreKnown};
ghost use Rattle.frame_draw.specs.Pictures.{cells_text, picture_of, rows_text, value_at, IsPicture};
ghost use Rattle.frame_draw.specs.RowNumbers.{AreCellsOf};

use crate::known::KnownTexts;
use crate::plane::Plane;
use quantity::{OutOfMemory, Place, Value, put};

/// The cells of a row: the number of the first, and how far it is from each to the next.
#[derive(Clone, Copy)]
pub(crate) struct RowCells {
    first: usize,
    step: usize,
}

/// Appends all rows.
pub(crate) fn put_rows(
    plane: &Plane,
    values: &[Value],
    into: &mut Vec<u8>,
) -> Result<(), OutOfMemory>
    requires { IsPicture plane.now values.now }
    ensures ok { OnOk result (into.new.items ≡
        into.old.items ++ rows_text plane.now values.now plane.now.grid.rows) }
    ensures kept { take (length into.old.items) into.new.items ≡ into.old.items }
{
    let mut texts = KnownTexts::new();
    for row in 0..plane.grid.rows() {
        put_row(plane, values, row, &mut texts, into)?;
    }
    Ok(())
}

fn put_row(
    plane: &Plane,
    values: &[Value],
    row: u32,
    texts: &mut KnownTexts,
    into: &mut Vec<u8>,
) -> Result<(), OutOfMemory>
    requires picture { IsPicture plane.now values.now }
    requires row { row < plane.now.grid.rows }
    requires known { AreKnown plane.now.decimals plane.now.width texts.old }
    ensures known { AreKnown plane.now.decimals plane.now.width texts.new }
    ensures ok { OnOk result (into.new.items ≡
        into.old.items ++ row_text (picture_of plane.now) (value_of_cell values.now) row) }
    ensures kept { take (length into.old.items) into.new.items ≡ into.old.items }
{
    put(b"|", into)?;
    put_cells(plane, values, row, texts, into)?;
    put(b"|\n", into)
}

/// Appends the values of the cells of a row.
fn put_cells(
    plane: &Plane,
    values: &[Value],
    row: u32,
    texts: &mut KnownTexts,
    into: &mut Vec<u8>,
) -> Result<(), OutOfMemory>
    requires picture { IsPicture plane.now values.now }
    requires row { row < plane.now.grid.rows }
    requires known { AreKnown plane.now.decimals plane.now.width texts.old }
    ensures known { AreKnown plane.now.decimals plane.now.width texts.new }
    ensures ok { OnOk result (into.new.items ≡
        into.old.items ++ cells_text plane.now values.now row plane.now.grid.columns) }
    ensures kept { take (length into.old.items) into.new.items ≡ into.old.items }
{
    // A copy, which no write of a text can change.
    let drawn = *plane;
    let Some(cells) = cells_of_row(&drawn, row) else {
        return Ok(());
    };
    for column in 0..drawn.grid.columns() {
        let cell = cell_number(&drawn, values, row, &cells, column);
        put_cell(&drawn, values, cell, texts, into)?;
    }
    Ok(())
}

/// Appends the value of a cell.
#[inline(always)]
fn put_cell(
    plane: &Plane,
    values: &[Value],
    cell: usize,
    texts: &mut KnownTexts,
    into: &mut Vec<u8>,
) -> Result<(), OutOfMemory>
    requires picture { IsPicture plane.now values.now }
    requires inside { cell < length values.now }
    requires known { AreKnown plane.now.decimals plane.now.width texts.old }
    ensures known { AreKnown plane.now.decimals plane.now.width texts.new }
    ensures ok { OnOk result (into.new.items ≡
        into.old.items ++ value_at plane.now values.now cell) }
    ensures kept { take (length into.old.items) into.new.items ≡ into.old.items }
{
    texts.put_value(&values[cell], plane, into)
}

/// The cells of a row of the plane; None where it has none.
fn cells_of_row(plane: &Plane, row: u32) -> Option<RowCells>
    requires plane { plane.now.plane < plane_count plane.now.grid }
    requires row { row < plane.now.grid.rows }
    ensures some { IfSome result (AreCellsOf plane.now row) }
    ensures none { result ≡ None → plane.now.grid.columns ≡ 0 }
{
    let place = Place {
        row,
        column: 0,
        plane: plane.plane,
    };
    let first = plane.grid.index(place)?;
    Some(RowCells {
        first: first as usize,
        step: plane.grid.planes() as usize,
    })
}

/// The number of the cell in a column of a row.
#[inline(always)]
fn cell_number(plane: &Plane, values: &[Value], row: u32, cells: &RowCells, column: u32) -> usize
    requires picture { IsPicture plane.now values.now }
    requires row { row < plane.now.grid.rows }
    requires column { column < plane.now.grid.columns }
    requires cells { AreCellsOf plane.now row cells.now }
    ensures value { result ≡ number_of plane.now.grid row column plane.now.plane }
    ensures inside { result < length values.now }
{
    cells.first + column as usize * cells.step
}
