// Want of memory.
ghost use Rattle.std.specs.Prelude.{◌≡◌, ◌<◌, ◌^◌, IfOk, OnOk};

use std::alloc::AllocError;

/// There is no memory for what was asked.
#[derive(Clone, Copy, PartialEq, Eq, Debug)]
pub struct OutOfMemory;

impl From<AllocError> for OutOfMemory {
    fn from(_error: AllocError) -> OutOfMemory {
        OutOfMemory
    }
}

/// A number of things as tables keep it, which is refused as if there were no memory for more.
pub fn counted(number: usize) -> Result<u32, OutOfMemory>
    ensures number { IfOk result (λ n. n ≡ number) }
    ensures few { OnOk result (number < 2 ^ 32) }
{
    u32::try_from(number).map_err(|_| OutOfMemory)
}
