// The events of a file, in the order of the file.
ghost use Rattle.std.specs.Prelude.{◌≡◌, ◌≢◌, ◌+◌, ◌≤◌, ◌++◌, length, map, IfErr, IfOk, OnOk, Some, None};
ghost use Rattle.quantity.specs.declared.bounds.TheConstants.{MAX_FILE_BYTES, MAX_PORTS};
ghost use Rattle.source_text.specs.Lines.{filled_lines};
ghost use Rattle.event_list.specs.Events.{events_refused};
ghost use Rattle.event_list.specs.LineByLine.{events_in, filled_line};
ghost use Rattle.event_list.specs.Shown.{plain_event};

use crate::event::Event;
use crate::line::event_in;
use crate::refusal::EventRefusal;
use quantity::{MAX_EVENTS, Name, Value};
use source_text::cut::part_before;
use source_text::line::text_of_line;
use std::alloc::{AllocError, Global};

/// The events of all lines; the first line that is refused.
pub(crate) fn events_listed(
    alloc: Global,
    bytes: &[u8],
    ports: &[Name],
) -> Result<Vec<Event>, EventRefusal>
    requires short { length bytes.now ≤ MAX_FILE_BYTES }
    requires few { length ports.now ≤ MAX_PORTS }
    ensures accepted { OnOk result (events_refused ports.now 0 (filled_lines bytes.now) ≡ None) }
    ensures events { IfOk result (λ events. map plain_event events.items
        ≡ events_in ports.now (filled_lines bytes.now)) }
    ensures err { IfErr result (λ refusal. refusal ≢ EventRefusal.Memory
        → events_refused ports.now 0 (filled_lines bytes.now) ≡ Some refusal) }
{
    let mut events = Vec::new(alloc);
    let mut number = 1;
    let mut rest = bytes;
    while let Some((line, behind)) = part_before(b'\n', rest) {
        add_line(number, line, ports, &mut events)?;
        number += 1;
        rest = behind;
    }
    add_line(number, rest, ports, &mut events)?;
    Ok(events)
}

/// Adds the event of a line with this number, or none where the line is empty.
fn add_line(
    number: u32,
    line: &[u8],
    ports: &[Name],
    events: &mut Vec<Event>,
) -> Result<(), EventRefusal>
    requires { length ports.now ≤ MAX_PORTS }
    ensures accepted { OnOk result (events_refused ports.now (length events.old.items)
        (filled_line number line.now) ≡ None) }
    ensures events { OnOk result (map plain_event events.new.items
        ≡ map plain_event events.old.items ++ events_in ports.now (filled_line number line.now)) }
    ensures count { OnOk result (length events.new.items
        ≡ length events.old.items + length (filled_line number line.now)) }
    ensures err { IfErr result (λ refusal. refusal ≢ EventRefusal.Memory
        → events_refused ports.now (length events.old.items) (filled_line number line.now)
        ≡ Some refusal) }
{
    let text = text_of_line(line);
    if text.is_empty() {
        return Ok(());
    }
    // For the proof: the type of an event's value is named.
    let _value: Option<Value> = None;
    let event = event_in(number, text, ports)?;
    if events.len() >= MAX_EVENTS {
        return Err(EventRefusal::TooLarge(number));
    }
    events.push(event).map_err(AllocError::from)?;
    Ok(())
}
