// The text of one frame. A refusal may leave more behind what was there.
ghost use Rattle.std.specs.Prelude.{◌≡◌, ◌*◌, ◌++◌, length, take, replicate, OnOk};
ghost use Rattle.quantity.specs.ByteNames.{minus_sign};
ghost use Rattle.text_forms.specs.Frames.{edge, frame_text};
ghost use Rattle.frame_draw.specs.Drawing.{value_of_cell};
ghost use Rattle.frame_draw.specs.Pictures.{framed_rows, picture_of, time_line, IsPicture};

use crate::plane::Plane;
use crate::rows::put_rows;
use quantity::{OutOfMemory, Time, Value, put};

/// Appends the frame of an instant.
pub(crate) fn put_frame(
    plane: &Plane,
    values: &[Value],
    at: Time,
    into: &mut Vec<u8>,
) -> Result<(), OutOfMemory>
    requires { IsPicture plane.now values.now }
    ensures ok { OnOk result (into.new.items ≡
        into.old.items ++ frame_text (picture_of plane.now) at (value_of_cell values.now)) }
    ensures kept { take (length into.old.items) into.new.items ≡ into.old.items }
{
    put_time(at, into)?;
    put_framed_rows(plane, values, into)?;
    put(b"\n", into)
}

fn put_time(at: Time, into: &mut Vec<u8>) -> Result<(), OutOfMemory>
    ensures ok { OnOk result (into.new.items ≡ into.old.items ++ time_line at) }
    ensures kept { take (length into.old.items) into.new.items ≡ into.old.items }
{
    put(b"Time: ", into)?;
    at.text(into)?;
    put(b"\n", into)
}

/// Appends the rows between two edges.
fn put_framed_rows(plane: &Plane, values: &[Value], into: &mut Vec<u8>) -> Result<(), OutOfMemory>
    requires { IsPicture plane.now values.now }
    ensures ok { OnOk result (into.new.items ≡
        into.old.items ++ framed_rows plane.now values.now) }
    ensures kept { take (length into.old.items) into.new.items ≡ into.old.items }
{
    put_edge(plane, into)?;
    put_rows(plane, values, into)?;
    put_edge(plane, into)
}

/// Appends the line above and below the rows.
fn put_edge(plane: &Plane, into: &mut Vec<u8>) -> Result<(), OutOfMemory>
    ensures ok { OnOk result (into.new.items ≡ into.old.items ++ edge (picture_of plane.now)) }
    ensures kept { take (length into.old.items) into.new.items ≡ into.old.items }
{
    let columns = plane.grid.columns() as usize;
    put(b"+", into)?;
    put_dashes(usize::from(plane.width) * columns, into)?;
    put(b"+\n", into)
}

fn put_dashes(count: usize, into: &mut Vec<u8>) -> Result<(), OutOfMemory>
    ensures ok { OnOk result (into.new.items ≡ into.old.items ++ replicate count minus_sign) }
    ensures kept { take (length into.old.items) into.new.items ≡ into.old.items }
{
    let Some(end) = into.len().checked_add(count) else {
        return Err(OutOfMemory);
    };
    match into.resize(end, b'-') {
        Ok(()) => Ok(()),
        Err(_) => Err(OutOfMemory),
    }
}
