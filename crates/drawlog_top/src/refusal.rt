// Why a log is not drawn.
use quantity::OutOfMemory;

/// Why a log is not drawn.
#[derive(Clone, Copy, PartialEq, Eq, Debug)]
pub enum DrawRefusal {
    /// The log is refused at this line, the first that is.
    LogRefused(u32),
    /// There is no memory for the frames.
    Memory,
}

impl From<OutOfMemory> for DrawRefusal {
    ghost use Rattle.std.specs.Prelude.{◌≡◌};
    ghost use Rattle.drawlog_top.specs.declared.refusal.DrawRefusal.TheVariants.{Memory};

    ghost from_gives = { λ _ refusal. refusal ≡ Memory };

    fn from(_error: OutOfMemory) -> DrawRefusal {
        DrawRefusal::Memory
    }
}
