// The text of a file that the words name.
ghost use Rattle.std.specs.Prelude.{◌≤◌, IfOk, IfSome, length};
ghost use Rattle.room_edge.specs.FaultCounts.{KeepsReadFaults};
ghost use Rattle.room_edge.specs.Only.{OnlyInput};
ghost use Rattle.run_inputs.specs.Read.{ReadsText, ReadCauses};

use crate::unread::Unread;
use quantity::Text;
use room_edge::{ReadWhole, Room, read_whole};
use std::alloc::Global;

/// The bytes of the file of this name, or none where it has more than `longest`.
pub fn read_text<R: Room>(
    alloc: Global,
    room: &mut R,
    name: &str,
    longest: u32,
) -> Result<Option<Vec<u8>>, Unread>
    ensures reads { ReadsText name.now longest (R.outside room.old) (R.outside room.new) result }
    ensures short { IfOk result (λ text. IfSome text (λ bytes. length bytes.items ≤ longest)) }
    ensures causes { ReadCauses (R.outside room.old) (R.outside room.new) result }
    ensures faults { KeepsReadFaults (R.outside room.old) (R.outside room.new) }
    ensures only { OnlyInput (R.outside room.old) (R.outside room.new) }
{
    let Ok(kept) = Text::copy(alloc, name.as_bytes()) else {
        return Err(Unread::Memory);
    };
    match read_whole(alloc, room, name, longest) {
        Ok(bytes) => Ok(Some(bytes)),
        Err(ReadWhole::Missing) => Err(Unread::Missing(kept)),
        Err(ReadWhole::ReadFault) => Err(Unread::ReadFault(kept)),
        Err(ReadWhole::TooLong(_)) => Ok(None),
        Err(ReadWhole::Memory) => Err(Unread::Memory),
    }
}
