// What a leaf tells when it moves.
use quantity::{Time, Value};

/// What is told of a leaf that moved: its computed value, where it is a cell, and its next time.
#[derive(Clone, Copy)]
pub struct Told {
    pub value: Option<Value>,
    pub next: Option<Time>,
}
