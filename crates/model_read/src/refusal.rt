// Why there is no model.
use model_text::Kind;
use quantity::{OutOfMemory, Text};
use std::alloc::AllocError;

/// Why there is no model.
#[derive(Drop)]
pub enum ModelRefusal {
    /// There is no file of this name.
    Missing(Text),
    /// The file of this name can't be read.
    ReadFault(Text),
    /// A line, 0 for the whole file, and why it is refused.
    Refused { line: u32, kind: Kind },
    /// There is no memory.
    Memory,
}

impl From<AllocError> for ModelRefusal {
    ghost use Rattle.std.specs.Prelude.{◌≡◌};
    ghost use Rattle.model_read.specs.declared.refusal.ModelRefusal.TheVariants.{Memory};

    ghost from_gives = { λ _ why. why ≡ Memory };

    fn from(_error: AllocError) -> ModelRefusal {
        ModelRefusal::Memory
    }
}

impl From<OutOfMemory> for ModelRefusal {
    ghost use Rattle.std.specs.Prelude.{◌≡◌};
    ghost use Rattle.model_read.specs.declared.refusal.ModelRefusal.TheVariants.{Memory};

    ghost from_gives = { λ _ why. why ≡ Memory };

    fn from(_error: OutOfMemory) -> ModelRefusal {
        ModelRefusal::Memory
    }
}
