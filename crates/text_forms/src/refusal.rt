// Why a saved state is refused.

/// Why a saved state is refused, with the number of the line.
#[derive(Clone, Copy, PartialEq, Eq)]
pub enum StateRefusal {
    /// A line that isn't of the form for its place, or is no state of its component at the time;
    /// also one that is missing or follows the end.
    BadStateLine(u32),
    /// A time after the end of the run, in line 2.
    EndBefore(u32),
    /// A text of more than `MAX_LOG_BYTES` bytes, at line 0.
    TooLarge(u32),
    /// There is no memory for the state.
    Memory,
}
