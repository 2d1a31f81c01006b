// What is told of a file that could not be written.
ghost use Rattle.run_loop.specs.AskedFiles.{names_of};
ghost use Rattle.run_loop.specs.Written.{Tells, Blames};

use crate::outputs::{Unwritten, name_of};
use asked_words::{Asked, Status, write_fault};
use room_edge::Room;
use std::alloc::Global;

/// Tells of the file that could not be written. For want of memory there is no line.
pub(crate) fn tell_unwritten<R: Room>(
    alloc: Global,
    room: &mut R,
    asked: &Asked<'_>,
    why: Unwritten,
) -> Status
    requires { Blames (names_of asked.now) why }
    ensures { Tells (names_of asked.now) why (R.outside room.old) (R.outside room.new) result }
{
    match why {
        Unwritten::Fault(file) => {
            let Some(name) = name_of(asked, file) else {
                unreachable!()
            };
            write_fault(alloc, room, name)
        }
        Unwritten::Memory => Status::NoMemory,
    }
}
