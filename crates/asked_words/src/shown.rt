// What is shown at the end.
ghost use Rattle.answer_model.specs.declared.status.Status.TheVariants.{Done};
ghost use Rattle.answer_model.specs.Endings.{ShowsEnd};

use crate::complaints::write_fault;
use answer_model::Status;
use room_edge::{Room, WriteAll, show_all};
use std::alloc::Global;

/// Shows all of some bytes, with which the program ends: done; or the status of a write fault, of
/// which a line tells; or that of want of memory.
pub fn show<R: Room>(alloc: Global, room: &mut R, bytes: &[u8]) -> Status
    ensures { ShowsEnd bytes.now Done (R.outside room.old) (R.outside room.new) result }
{
    match show_all(room, bytes) {
        Ok(()) => Status::Done,
        Err(WriteAll::WriteFault(_)) => write_fault(alloc, room, "standard output"),
        Err(WriteAll::Memory(_)) => Status::NoMemory,
    }
}
