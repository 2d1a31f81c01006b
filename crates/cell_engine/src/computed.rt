// What a cell computed last, and when it is due next.
use quantity::{Time, Value};

/// The value that a cell computed last at its port `out`, and its next time.
#[derive(Clone, Copy)]
pub struct Computed {
    pub value: Value,
    pub next: Option<Time>,
}
