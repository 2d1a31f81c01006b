// What the start of a cycle answers.
use quantity::Time;

/// A cycle starts at this instant, or the run is done.
#[derive(Clone, Copy, PartialEq, Eq)]
pub enum Started {
    Cycle(Time),
    Done,
}
