// What a cell tells.
use quantity::{Time, Value};

/// What a cell gave last and computed last at each port, `?` past its ports, and when it is due
/// next.
#[derive(Clone, Copy, PartialEq, Eq, Debug)]
pub struct Cell {
    pub emitted: [Value; 4],
    pub computed: [Value; 4],
    pub next: Option<Time>,
}
