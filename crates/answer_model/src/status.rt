// The statuses that a process of a program ends with.

/// How a program ends. The table of `specs/Status.antt` has the number that its process answers
/// (`number` in code), the part of the program that ends so, and of 2 to 5 the cause.
#[derive(Clone, Copy)]
pub enum Status {
    /// All is done, and what there is to show is shown.
    Done,
    /// The words are refused.
    Usage,
    /// A file that is to be read isn't there.
    Missing,
    /// A read failed.
    ReadFault,
    /// A write failed: of a file, of what is shown, or of a complaint.
    WriteFault,
    /// The model is refused.
    ModelRefused,
    /// The events are refused.
    EventsRefused,
    /// A cell has no true rule.
    NoTrueRule,
    /// A value is too large.
    Overflow,
    /// A rule gives a delay that is no time.
    BadDelay,
    /// An instant has too many cycles.
    TooManyCycles,
    /// There is no memory.
    NoMemory,
    /// A log is refused.
    LogRefused,
    /// A saved state is refused.
    StateRefused,
}
