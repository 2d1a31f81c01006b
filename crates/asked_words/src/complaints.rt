// What is said of a fault or a refusal.
ghost use Rattle.std.specs.Prelude.{◌++◌};
ghost use Rattle.text_forms.specs.Lines.{line_with_end};
ghost use Rattle.answer_model.specs.declared.status.Status.TheVariants.{WriteFault};
ghost use Rattle.answer_model.specs.Answer.{write_fault_line};
ghost use Rattle.answer_model.specs.Endings.{Says};

use crate::lines::named_line;
use answer_model::Status;
use room_edge::{Room, WriteAll, complain_all};
use std::alloc::Global;

/// Complains by one line. The status is the given one, or that of a write fault or of want of
/// memory where the line can't be written.
pub fn complain<R: Room>(room: &mut R, line: &[u8], status: Status) -> Status
    ensures { Says line.now status (R.outside room.old) (R.outside room.new) result }
{
    match complain_all(room, line) {
        Ok(()) => status,
        Err(WriteAll::WriteFault(_)) => Status::WriteFault,
        Err(WriteAll::Memory(_)) => Status::NoMemory,
    }
}

/// Complains of a file whose name is these bytes.
pub fn complain_of<R: Room>(
    alloc: Global,
    room: &mut R,
    what: &[u8],
    name: &[u8],
    status: Status,
) -> Status
    ensures { Says (line_with_end (what.now ++ name.now)) status
        (R.outside room.old) (R.outside room.new) result }
{
    let Ok(line) = named_line(alloc, what, name) else {
        return Status::NoMemory;
    };
    complain(room, &line, status)
}

/// Complains of a file or a stream.
pub fn complain_named<R: Room>(
    alloc: Global,
    room: &mut R,
    what: &[u8],
    name: &str,
    status: Status,
) -> Status
    ensures { Says (line_with_end (what.now ++ name.now)) status
        (R.outside room.old) (R.outside room.new) result }
{
    complain_of(alloc, room, what, name.as_bytes(), status)
}

/// Tells of a write that failed, as far as it can.
pub fn write_fault<R: Room>(alloc: Global, room: &mut R, name: &str) -> Status
    ensures { Says (write_fault_line name.now) WriteFault
        (R.outside room.old) (R.outside room.new) result }
{
    complain_named(alloc, room, b"write fault: ", name, Status::WriteFault)
}
