// The greatest sizes that the program takes.

/// The longest delay and the latest end of a run, in milliseconds: 99:59:59:999.
pub const MAX_DELAY: u32 = 359_999_999;

/// The latest time, in milliseconds: the longest delay after the latest end.
pub const MAX_TIME: u32 = 719_999_998;

/// The greatest size of a number, in hundred-thousandths: 10^10.
pub const MAX_RAW: u64 = 1_000_000_000_000_000;

/// The most cells of a space, and of all groups of a model.
pub const MAX_CELLS: u32 = 1_048_576;

/// The most levels of sections in a model: a section and those around it, top among them.
pub const MAX_LEVELS: u32 = 17;

/// The most atomic components of a model.
pub const MAX_ATOMICS: usize = 4_096;

/// The most links of a model.
pub const MAX_LINKS: usize = 16_384;

/// The most inputs, and the most outputs, of a model.
pub const MAX_PORTS: usize = 65_536;

/// The most paths along the links of a model.
pub const MAX_PATHS: u32 = 65_536;

/// The most offsets by which the cells of a group have neighbours.
pub const MAX_OFFSETS: usize = 128;

/// The most rules of a section of rules.
pub const MAX_RULES: usize = 1_024;

/// The most cycles of one instant that words may allow.
pub const MAX_CYCLES: u32 = 1_000_000;

/// The most events of a file of events.
pub const MAX_EVENTS: usize = 1_048_576;

/// The most bytes of a file that is read: of a model, of events, of initial values.
pub const MAX_FILE_BYTES: usize = 16_777_216;

/// The most bytes of a log or of a saved state that is read.
pub const MAX_LOG_BYTES: usize = 268_435_456;
