// Why an event file is refused.
ghost use Rattle.std.specs.Prelude.{◌≡◌};

use std::alloc::AllocError;

/// Why an event file is refused, with the number of the line.
#[derive(Clone, Copy)]
pub enum EventRefusal {
    /// A line that isn't a time, a name and a value.
    BadEventLine(u32),
    /// A name that isn't an input of the whole model.
    UnknownPort(u32),
    /// The 1048577th event; or a file of more than `MAX_FILE_BYTES` bytes, at line 0.
    TooLarge(u32),
    /// There is no memory for the events.
    Memory,
}

impl From<AllocError> for EventRefusal {
    ghost use Rattle.event_list.specs.declared.refusal.EventRefusal.TheVariants.{Memory};

    ghost from_gives = { λ _ refusal. refusal ≡ Memory };

    fn from(_error: AllocError) -> EventRefusal {
        EventRefusal::Memory
    }
}
