// The settings of a state table.
use atomic_face::PortNo;
use quantity::{Time, Value};

/// What a state gives when its time is over.
#[derive(Clone, Copy)]
pub enum Shown {
    Value(Value),
    /// The value that came in last.
    Last,
}

/// How long a state is held, what it then gives, and the number of the state that follows.
#[derive(Clone, Copy)]
pub struct Hold {
    pub time: Time,
    pub shown: Shown,
    pub next: u8,
}

/// The values that lead on from a state.
#[derive(Clone, Copy)]
pub enum Wanted {
    Value(Value),
    Any,
}

/// From a state, a value at a port leads to another state.
#[derive(Clone, Copy)]
pub struct Take {
    pub state: u8,
    pub port: PortNo,
    pub wanted: Wanted,
    pub next: u8,
}

/// What a table is set to: a hold or none for each of its 1 to 64 states, counted from 0, the state
/// that it starts in, and its takes in order, at most 1024.
#[derive(Drop)]
pub struct TableSettings {
    pub initial: u8,
    pub holds: Vec<Option<Hold>>,
    pub takes: Vec<Take>,
}
