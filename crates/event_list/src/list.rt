// The events that are left, in order of time.
ghost use Rattle.std.specs.Prelude.{◌≡◌, ◌≢◌, ◌<◌, ◌≤◌, ◌+◌, ◌^◌, ◌==◌, [], ◌++◌, length, map, drop, not, nat_le, nat_lt, All, IfErr, IfOk, IfSome, OnOk, OnErr};
ghost use Rattle.std.specs.List.{filter, prefix_len};
ghost use Rattle.event_list.specs.Events.{Event as AnyEvent, events_of, by_time};
ghost use Rattle.event_list.specs.Shown.{first_event_time, port_and_value, plain_event, time_of};
ghost use Rattle.std.specs.List.Sorted.{IsNonDecreasingBy};
ghost use Rattle.quantity.specs.declared.bounds.TheConstants.{MAX_PORTS};

use crate::event::Event;
use crate::read::events_listed;
use crate::refusal::EventRefusal;
use quantity::{MAX_FILE_BYTES, Name, OutOfMemory, Time, Value};
use std::alloc::Global;
use std::marker::Model;

/// The events of a file that are left, in order of time, and at one time in the order of the file.
#[derive(Drop)]
pub struct Events {
    all: Vec<Event>,
    /// How many of them are no longer left: those in front.
    gone: usize,
}

impl Model for Events {
    ghost use Rattle.std.specs.Prelude.{List, map, drop, ◌≤◌, length};
    ghost use Rattle.std.specs.List.Sorted.{IsNonDecreasingBy};
    ghost use Rattle.event_list.specs.Events.{Event};
    ghost use Rattle.event_list.specs.Shown.{plain_event, time_of};

    ghost Value = { List Event };

    ghost view = { λ e. map plain_event (drop e.gone e.all.items) };

    ghost invariant = { λ e. (e.gone ≤ length e.all.items)
        × IsNonDecreasingBy time_of e.all.items };
}

impl Events {
    /// The events of a file for these inputs of the whole model. Each line is a time, the name of
    /// an input in letters of any case, and a value; `%` begins a comment. The first line that is
    /// refused counts, a file of more than `MAX_FILE_BYTES` bytes as its line 0, and the 1048577th
    /// event by its line.
    pub fn read(alloc: Global, bytes: &[u8], ports: &[Name]) -> Result<Events, EventRefusal>
        requires short { length bytes.now < 2 ^ 32 }
        requires few { length ports.now ≤ MAX_PORTS }
        ensures ok { IfOk result (λ events. events_of bytes.now ports.now ≡ Ok events) }
        ensures err { IfErr result (λ why. why ≢ EventRefusal.Memory
            → events_of bytes.now ports.now ≡ Err why) }
    {
        if bytes.len() > MAX_FILE_BYTES {
            return Err(EventRefusal::TooLarge(0));
        }
        let mut all = events_listed(alloc, bytes, ports)?;
        sort_by_time(&mut all)?;
        Ok(Events { all, gone: 0 })
    }

    /// No events.
    pub fn none(alloc: Global) -> Events
        ensures { result ≡ [] }
    {
        Events {
            all: Vec::new(alloc),
            gone: 0,
        }
    }

    /// The time of the first event that is left, or None where none is. No event that is left is
    /// before it.
    pub fn next(&self) -> Option<Time>
        ensures value { result ≡ first_event_time self.now }
        ensures least { IfSome result (λ time. All (λ (e : AnyEvent). time ≤ e.time) self.now) }
    {
        let event = self.all.get(self.gone)?;
        Some(event.time)
    }

    /// Takes the events of this time out: appends their ports and values in order. Where memory is
    /// refused, both lists stay as they were.
    pub fn take(&mut self, at: Time, into: &mut Vec<(u16, Value)>) -> Result<(), OutOfMemory>
        requires { All (λ (e : AnyEvent). at ≤ e.time) self.old }
        ensures taken { OnOk result (into.new.items
            ≡ into.old.items
            ++ map port_and_value (filter (λ (e : AnyEvent). e.time == at) self.old)) }
        ensures left { OnOk result (self.new
            ≡ filter (λ (e : AnyEvent). not (e.time == at)) self.old) }
        ensures err_into { OnErr result (into.new.items ≡ into.old.items) }
        ensures err_left { OnErr result (self.new ≡ self.old) }
    {
        let left = &self.all[self.gone..];
        let count = count_until(left, at);
        append(&left[..count], into)?;
        self.gone += count;
        Ok(())
    }

    /// Drops the events up to this time, that very time included. It takes no memory.
    pub fn skip(&mut self, to: Time)
        ensures { self.new ≡ filter (λ (e : AnyEvent). nat_lt to e.time) self.old }
    {
        let left = &self.all[self.gone..];
        let count = count_until(left, to);
        self.gone += count;
    }
}

/// How many events in front are not after this time.
fn count_until(events: &[Event], to: Time) -> usize
    ensures count { result ≡ prefix_len (λ e. nat_le (time_of e) to) events.now }
    ensures within { result ≤ length events.now }
{
    let mut count = 0;
    for event in events {
        if event.time.ms() > to.ms() {
            return count;
        }
        count += 1;
    }
    count
}

/// Appends the ports and values of these events. Where memory is refused, `into` stays as it was.
fn append(events: &[Event], into: &mut Vec<(u16, Value)>) -> Result<(), OutOfMemory>
    ensures ok { OnOk result
        (into.new.items ≡ into.old.items ++ map port_and_value (map plain_event events.now)) }
    ensures err { OnErr result (into.new.items ≡ into.old.items) }
{
    let before = into.len();
    for event in events {
        let Ok(()) = into.push((event.port, event.value)) else {
            into.truncate(before);
            return Err(OutOfMemory);
        };
    }
    Ok(())
}

fn sort_by_time(events: &mut Vec<Event>) -> Result<(), EventRefusal>
    ensures order { OnOk result (map plain_event events.new.items
        ≡ by_time (map plain_event events.old.items)) }
    ensures sorted { OnOk result (IsNonDecreasingBy time_of events.new.items) }
    ensures err { OnErr result (result ≡ Err EventRefusal.Memory) }
{
    events.sort_by_key(|event| event.time.ms())?;
    Ok(())
}
