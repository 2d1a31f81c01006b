// What a call of a run answers.
use quantity::Time;

/// What a call of `cycle` did: a cycle at this instant, or nothing, as the run is done.
#[derive(Clone, Copy, PartialEq, Eq, Debug)]
pub enum Progress {
    Cycled(Time),
    Done,
}
