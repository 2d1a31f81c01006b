// The events of a run.
ghost use Rattle.std.specs.Prelude.{◌≤◌, IfOk, length, Some};
ghost use Rattle.quantity.specs.declared.bounds.TheConstants.{MAX_PORTS};
ghost use Rattle.asked_words.specs.Shown.{text_of_name};
ghost use Rattle.sparse_cycle.specs.Feed.{AreAtInputs};
ghost use Rattle.room_edge.specs.Only.{OnlyInput};
ghost use Rattle.run_inputs.specs.Read.{ReadsToldEvents, ReadCauses};

use crate::text::read_text;
use crate::unread::Unread;
use answer_model::drawn::accepted_events_are_at_ports;
use event_list::{EventRefusal, Events};
use quantity::{MAX_FILE_BYTES, Name};
use room_edge::Room;
use std::alloc::Global;

// The most bytes that a file of events may have.
const LONGEST: u32 = MAX_FILE_BYTES as u32;

/// Reads the events for these inputs, where there are to be some.
pub fn read_events<R: Room>(
    alloc: Global,
    room: &mut R,
    name: Option<&str>,
    ports: &[Name],
) -> Result<Events, Unread>
    requires few { length ports.now ≤ MAX_PORTS }
    ensures reads { ReadsToldEvents (text_of_name name.entry) ports.now
        (R.outside room.old) (R.outside room.new) result }
    ensures causes { ReadCauses (R.outside room.old) (R.outside room.new) result }
    ensures only { OnlyInput (R.outside room.old) (R.outside room.new) }
    ensures at_inputs { IfOk result (λ events. AreAtInputs ports.now events) }
{
    match name {
        None => Ok(Events::none(alloc)),
        Some(name) => read_file(alloc, room, name, ports),
    }
}

/// Reads the events of a file.
fn read_file<R: Room>(
    alloc: Global,
    room: &mut R,
    name: &str,
    ports: &[Name],
) -> Result<Events, Unread>
    requires few { length ports.now ≤ MAX_PORTS }
    ensures reads { ReadsToldEvents (Some name.now) ports.now
        (R.outside room.old) (R.outside room.new) result }
    ensures causes { ReadCauses (R.outside room.old) (R.outside room.new) result }
    ensures only { OnlyInput (R.outside room.old) (R.outside room.new) }
    ensures at_inputs { IfOk result (λ events. AreAtInputs ports.now events) }
{
    accepted_events_are_at_ports();
    match read_text(alloc, room, name, LONGEST) {
        Ok(Some(bytes)) => match Events::read(alloc, &bytes, ports) {
            Ok(events) => Ok(events),
            Err(refusal) => Err(Unread::Events(refusal)),
        },
        Ok(None) => Err(Unread::Events(EventRefusal::TooLarge(0))),
        Err(why) => Err(why),
    }
}
