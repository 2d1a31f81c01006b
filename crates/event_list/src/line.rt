// One line of an event file.
ghost use Rattle.std.specs.Prelude.{◌≡◌, ◌≤◌, ◌<◌, [], ◌∷◌, length, IfErr, IfOk, IfSome, MatchOption};
ghost use Rattle.std.specs.Char.{to_ascii_lowercase};
ghost use Rattle.std.specs.List.{list_all, position};
ghost use Rattle.std.specs.Str.{bytes_eq};
ghost use Rattle.quantity.specs.Bytes.{words};
ghost use Rattle.quantity.specs.Names.{is_name, is_of_name};
ghost use Rattle.quantity.specs.declared.bounds.TheConstants.{MAX_PORTS};
ghost use Rattle.source_text.specs.Lines.{in_lower_case};
ghost use Rattle.event_list.specs.Events.{event_of_words};
ghost use Rattle.event_list.specs.LineByLine.{AreNoEvent};
ghost use Rattle.event_list.specs.Shown.{plain_event};

use crate::event::Event;
use crate::refusal::EventRefusal;
use quantity::name::is_of_name;
use quantity::{Name, Time, Value};
use source_text::words::next_word;

/// The event of a line with this number and text: a time, the name of an input in letters of any
/// case, and a value. UnknownPort where all is well but that no input has the name, and
/// BadEventLine for any other text.
pub(crate) fn event_in(line: u32, text: &[u8], ports: &[Name]) -> Result<Event, EventRefusal>
    requires { length ports.now ≤ MAX_PORTS }
    ensures ok { IfOk result (λ event. event_of_words ports.now line (words text.now)
        ≡ Ok (plain_event event)) }
    ensures err { IfErr result (λ refusal. event_of_words ports.now line (words text.now)
        ≡ Err refusal) }
{
    let Some((time, name, value)) = three_words(text) else {
        return Err(EventRefusal::BadEventLine(line));
    };
    let Some(time) = Time::parse(time) else {
        return Err(EventRefusal::BadEventLine(line));
    };
    let Some(value) = Value::parse(value) else {
        return Err(EventRefusal::BadEventLine(line));
    };
    if !is_folded_name(name) {
        return Err(EventRefusal::BadEventLine(line));
    }
    let Some(port) = port_called(name, ports) else {
        return Err(EventRefusal::UnknownPort(line));
    };
    Ok(Event { time, port, value })
}

/// The words of a text that has just three.
fn three_words(text: &[u8]) -> Option<(&[u8], &[u8], &[u8])>
    ensures { MatchOption result (AreNoEvent (words text.now))
        (λ found. words text.now ≡ found.0.now ∷ found.1.now ∷ found.2.now ∷ []) }
{
    let (time, rest) = next_word(text)?;
    let (name, rest) = next_word(rest)?;
    let (value, rest) = next_word(rest)?;
    match next_word(rest) {
        Some(_) => None,
        None => Some((time, name, value)),
    }
}

/// Whether the text in lower-case letters is a name.
fn is_folded_name(text: &[u8]) -> bool
    ensures { result ≡ is_name (in_lower_case text.now) }
{
    1 <= text.len() && text.len() <= 64 && each_is_of_name(text)
}

fn each_is_of_name(text: &[u8]) -> bool
    ensures { result ≡ list_all (λ c. is_of_name (to_ascii_lowercase c)) text.now }
{
    text.iter().all(|c| is_of_name(c.to_ascii_lowercase()))
}

/// The number of the port with this name in letters of any case.
fn port_called(name: &[u8], ports: &[Name]) -> Option<u16>
    requires { length ports.now ≤ MAX_PORTS }
    ensures { result ≡ position (bytes_eq (in_lower_case name.now)) ports.now }
{
    let port = place_called(name, ports)?;
    Some(port as u16)
}

fn place_called(name: &[u8], ports: &[Name]) -> Option<usize>
    ensures { result ≡ position (bytes_eq (in_lower_case name.now)) ports.now }
{
    ports.iter().position(|port| is_called(name, port))
}

fn is_called(name: &[u8], port: &Name) -> bool
    ensures { result ≡ bytes_eq (in_lower_case name.now) port.now }
{
    name.eq_ignore_ascii_case(port.as_bytes())
}
