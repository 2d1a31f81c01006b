// How leaves are called.
ghost use Rattle.std.specs.Prelude.{◌≡◌, ◌<◌, ◌++◌, ◌∷◌, take, length, decimal, OnOk};
ghost use Rattle.rule_tree.specs.Meaning.{coordinates};
ghost use Rattle.cell_grid.specs.Space.{cell_count, place_of, dims_of};
ghost use Rattle.model_leaves.specs.LeafTexts.{at_text, name_at};
ghost use Rattle.model_leaves.specs.PlaneTexts.{plane_text};
ghost use Rattle.model_leaves.specs.PartTexts.{part_text, part_outs, HasCell};

use crate::table::{Part, PartAt};
use cell_grid::Grid;
use itoa::Buffer;
use quantity::{OutOfMemory, put};

/// Appends how a leaf of a part is called. A refusal may leave more behind what was there.
pub(crate) fn put_leaf(part: &Part, cell: u32, into: &mut Vec<u8>) -> Result<(), OutOfMemory>
    requires { HasCell part.now.at cell }
    ensures ok { let text = part_text part.now.at part.now.name cell in
        OnOk result (into.new.items ≡ into.old.items ++ text) }
    ensures kept { take (length into.old.items) into.new.items ≡ into.old.items }
{
    put(part.name.as_bytes(), into)?;
    match &part.at {
        PartAt::Atomic(_) => Ok(()),
        PartAt::Cells(_, grid, _) => put_place(grid, cell, into),
    }
}

fn put_place(grid: &Grid, cell: u32, into: &mut Vec<u8>) -> Result<(), OutOfMemory>
    requires { cell < cell_count grid.now }
    ensures ok { let place = take (dims_of grid.now) (coordinates (place_of grid.now cell)) in
        OnOk result (into.new.items ≡ into.old.items ++ at_text place) }
    ensures kept { take (length into.old.items) into.new.items ≡ into.old.items }
{
    let place = grid.position(cell);
    put_number(b'(', place.row, into)?;
    put_number(b',', place.column, into)?;
    put_plane(grid, place.plane, into)
}

/// What stands behind row and column: the plane, where a space has planes, and the parenthesis.
fn put_plane(grid: &Grid, plane: u32, into: &mut Vec<u8>) -> Result<(), OutOfMemory>
    ensures ok { OnOk result (into.new.items ≡ into.old.items ++ plane_text grid.now plane) }
    ensures kept { take (length into.old.items) into.new.items ≡ into.old.items }
{
    if grid.dims() == 3 {
        put_number(b',', plane, into)?;
    }
    put(b")", into)
}

/// A byte, and a number behind it.
fn put_number(before: u8, number: u32, into: &mut Vec<u8>) -> Result<(), OutOfMemory>
    ensures ok { OnOk result (into.new.items ≡ into.old.items ++ before ∷ decimal number) }
    ensures kept { take (length into.old.items) into.new.items ≡ into.old.items }
{
    let mut buffer = Buffer::new();
    put(&[before], into)?;
    put(buffer.format(number).as_bytes(), into)
}

/// The name of an output port of the leaves of a part.
pub(crate) fn out_name(at: &PartAt, port: u16) -> &[u8]
    requires { port < length (part_outs at.now) }
    ensures { result.now ≡ name_at (part_outs at.now) port }
{
    match at {
        PartAt::Atomic(_) => b"out",
        PartAt::Cells(_, _, ports) => match port.checked_sub(1) {
            None => b"out",
            Some(further) => ports[further as usize].as_bytes(),
        },
    }
}
