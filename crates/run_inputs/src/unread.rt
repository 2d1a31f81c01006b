// Why nothing is read that a run could start from.
use event_list::EventRefusal;
use model_text::Kind;
use quantity::{OutOfMemory, Text};
use text_forms::StateRefusal;

/// Why there is nothing to start a run from.
#[derive(Drop)]
pub enum Unread {
    /// The words are refused.
    Usage,
    /// There is no file of this name.
    Missing(Text),
    /// The file of this name can't be read.
    ReadFault(Text),
    /// A line of the model, 0 for the whole file, and why it is refused.
    Model { line: u32, kind: Kind },
    /// The events are refused.
    Events(EventRefusal),
    /// The state that the run is to go on from is refused.
    State(StateRefusal),
    /// There is no memory.
    Memory,
}

impl From<OutOfMemory> for Unread {
    ghost use Rattle.std.specs.Prelude.{◌≡◌};
    ghost use Rattle.run_inputs.specs.declared.unread.Unread.TheVariants.{Memory};

    ghost from_gives = { λ _ why. why ≡ Memory };

    fn from(_error: OutOfMemory) -> Unread {
        Unread::Memory
    }
}
