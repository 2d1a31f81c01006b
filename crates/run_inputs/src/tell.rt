// What is told where nothing is read that a run could start from.
ghost use Rattle.std.specs.Prelude.{◌++◌, codes};
ghost use Rattle.text_forms.specs.Lines.{line_with_end};
ghost use Rattle.answer_model.specs.declared.status.Status.TheVariants.{Usage, EventsRefused, StateRefused};
ghost use Rattle.answer_model.specs.Answer.{refused_text};
ghost use Rattle.answer_model.specs.ByWords.{usage};
ghost use Rattle.answer_model.specs.Endings.{Says};
ghost use Rattle.run_inputs.specs.Unread.{TellsEvents, TellsState, TellsUnread};

use crate::lines::refused_line;
use crate::unread::Unread;
use asked_words::{Status, complain, complain_of, usage_line};
use event_list::EventRefusal;
use room_edge::Room;
use std::alloc::Global;
use text_forms::StateRefusal;

/// Tells why nothing is read, as far as it can.
pub fn tell_unread<R: Room>(alloc: Global, room: &mut R, why: Unread) -> Status
    ensures { TellsUnread why (R.outside room.old) (R.outside room.new) result }
{
    match why {
        Unread::Usage => tell_usage(alloc, room),
        Unread::Missing(name) => {
            complain_of(alloc, room, b"missing: ", name.as_bytes(), Status::Missing)
        }
        Unread::ReadFault(name) => {
            complain_of(
                alloc,
                room,
                b"read fault: ",
                name.as_bytes(),
                Status::ReadFault,
            )
        }
        Unread::Model { line, kind } => tell_refused(
            alloc,
            room,
            b"model",
            line,
            kind.text().as_bytes(),
            Status::ModelRefused,
        ),
        Unread::Events(refusal) => tell_events(alloc, room, refusal),
        Unread::State(refusal) => tell_state(alloc, room, refusal),
        Unread::Memory => Status::NoMemory,
    }
}

/// Tells what words the program takes, as far as it can.
fn tell_usage<R: Room>(alloc: Global, room: &mut R) -> Status
    ensures { Says (line_with_end (codes "usage: " ++ usage)) Usage
        (R.outside room.old) (R.outside room.new) result }
{
    let Ok(line) = usage_line(alloc) else {
        return Status::NoMemory;
    };
    complain(room, &line, Status::Usage)
}

/// Tells why there are no events, as far as it can.
fn tell_events<R: Room>(alloc: Global, room: &mut R, why: EventRefusal) -> Status
    ensures { TellsEvents why (R.outside room.old) (R.outside room.new) result }
{
    match why {
        EventRefusal::BadEventLine(line) => { refuse_events(alloc, room, line, b"1 BadEventLine") }
        EventRefusal::UnknownPort(line) => refuse_events(alloc, room, line, b"2 UnknownPort"),
        EventRefusal::TooLarge(line) => refuse_events(alloc, room, line, b"3 TooLarge"),
        EventRefusal::Memory => Status::NoMemory,
    }
}

/// Tells at which line the events are refused, and why.
fn refuse_events<R: Room>(alloc: Global, room: &mut R, line: u32, why: &[u8]) -> Status
    ensures { Says (line_with_end (refused_text (codes "events") line why.now)) EventsRefused
        (R.outside room.old) (R.outside room.new) result }
{
    tell_refused(alloc, room, b"events", line, why, Status::EventsRefused)
}

/// Tells why a state is refused, as far as it can.
fn tell_state<R: Room>(alloc: Global, room: &mut R, why: StateRefusal) -> Status
    ensures { TellsState why (R.outside room.old) (R.outside room.new) result }
{
    match why {
        StateRefusal::BadStateLine(line) => refuse_state(alloc, room, line, b"1 BadStateLine"),
        StateRefusal::EndBefore(line) => refuse_state(alloc, room, line, b"2 EndBefore"),
        StateRefusal::TooLarge(line) => refuse_state(alloc, room, line, b"3 TooLarge"),
        StateRefusal::Memory => Status::NoMemory,
    }
}

/// Tells at which line the state is refused, and why.
fn refuse_state<R: Room>(alloc: Global, room: &mut R, line: u32, why: &[u8]) -> Status
    ensures { Says (line_with_end (refused_text (codes "state") line why.now)) StateRefused
        (R.outside room.old) (R.outside room.new) result }
{
    tell_refused(alloc, room, b"state", line, why, Status::StateRefused)
}

/// Complains of what is refused.
fn tell_refused<R: Room>(
    alloc: Global,
    room: &mut R,
    what: &[u8],
    number: u32,
    why: &[u8],
    status: Status,
) -> Status
    ensures { Says (line_with_end (refused_text what.now number why.now)) status
        (R.outside room.old) (R.outside room.new) result }
{
    let Ok(line) = refused_line(alloc, what, number, why) else {
        return Status::NoMemory;
    };
    complain(room, &line, status)
}
