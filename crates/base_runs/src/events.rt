// Events of a file, skipped and taken one time after another.
use crate::values::number;
use event_list::{EventRefusal, Events};
use quantity::{Name, OutOfMemory, Time, Value};
use std::alloc::{AllocError, Global};
use std::process::Abort;
use std::test::Fail;

/// The names of two inputs.
const INPUTS: [&[u8]; 2] = [b"p", b"left.2"];

/// Puts the names of the inputs into a list.
fn push_inputs(alloc: Global, ports: &mut Vec<Name>) -> Result<(), EventRefusal> {
    for name in &INPUTS {
        let Ok(port) = Name::parse(alloc, name) else {
            return Err(EventRefusal::Memory);
        };
        ports.push(port).map_err(AllocError::from)?;
    }
    Ok(())
}

/// The events of a file for the inputs `p` and `left.2`.
fn read(alloc: Global, bytes: &[u8]) -> Result<Events, EventRefusal> {
    let mut ports = Vec::new(alloc);
    push_inputs(alloc, &mut ports)?;
    if bytes.len() > 20_000_000 || ports.len() > 2 {
        return Err(EventRefusal::Memory);
    }
    Events::read(alloc, bytes, &ports)
}

fn whole(digit: i64) -> Value {
    if digit < 0 || digit > 9 {
        return Value::Undefined;
    }
    number(digit * 100_000)
}

/// Takes the events of the first time: their time, with their inputs and values in `into`.
fn take_first(
    events: &mut Events,
    into: &mut Vec<(u16, Value)>,
) -> Result<Option<u32>, OutOfMemory> {
    let Some(at) = events.next() else {
        return Ok(None);
    };
    events.take(at, into)?;
    Ok(Some(at.ms()))
}

/// Five events, which are not in order.
const FILE: &[u8] =
    b"00:00:00:050 p 2\n00:00:00:010 p 1\n00:00:00:050 LEFT.2 3\n00:00:00:051 p 4\n00:00:01:000 p 5";

/// The time that is skipped to, the next time, how many values are taken then, and the input and
/// the digit of the last of them.
type Taken = (u32, Option<u32>, usize, u16, i64);

/// What is skipped and taken, one after another.
const TAKEN: [Taken; 3] = [
    (0, Some(10), 1, 0, 1),
    (49, Some(50), 2, 1, 3),
    (51, Some(1000), 1, 0, 5),
];

/// Skips events and takes the next ones.
fn takes(rt: &(impl Abort + AllocGlobal), events: &mut Events, wanted: &Taken) -> Result<(), Fail> {
    let (skipped, next, count, input, digit) = *wanted;
    events.skip(Time::new(skipped).ok_or("a time")?);
    let mut taken = Vec::new(rt.alloc());
    let found = take_first(events, &mut taken)?;
    assert_eq!(rt;
        (found, taken.len(), taken.last().copied()),
        (next, count, Some((input, whole(digit))))
    );
    Ok(())
}

/// Takes all events.
fn all_are_taken(rt: &(impl Abort + AllocGlobal), events: &mut Events) -> Result<(), Fail> {
    for wanted in &TAKEN {
        takes(rt, events, wanted)?;
    }
    assert_eq!(rt;
        (events.next(), Events::none(rt.alloc()).next()),
        (None, None)
    );
    Ok(())
}

#[test]
fn events_are_read_skipped_and_taken(rt: HostRuntime) -> Result<(), Fail> {
    let mut events = read(rt.alloc(), FILE).ok().ok_or("a file that is read")?;
    all_are_taken(&rt, &mut events)
}
