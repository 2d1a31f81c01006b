// A leaf that waits.
use quantity::Time;

/// A leaf and the time that it waits for.
#[derive(Clone, Copy, PartialEq, Eq)]
pub struct Entry {
    pub at: Time,
    pub leaf: u32,
}
