// What a room over the real outside counts.
ghost use Rattle.std.specs.Prelude.{◌≡◌, []};

use std::alloc::Global;

/// Counts of faults and misses, and the names asked for.
#[derive(Drop)]
pub(crate) struct Tally {
    pub(crate) read_faults: u64,
    pub(crate) write_faults: u64,
    pub(crate) complain_faults: u64,
    pub(crate) misses: u64,
    pub(crate) tried: Vec<String>,
}

/// A file that was made, kept open.
#[derive(Drop)]
pub(crate) struct MadeFile<F: Drop> {
    pub(crate) name: String,
    pub(crate) file: F,
}

/// Nothing was asked for, and nothing went wrong.
pub(crate) fn no_tally(alloc: Global) -> Tally
    ensures { (result.read_faults ≡ 0) × (result.write_faults ≡ 0) × (result.complain_faults ≡ 0)
        × (result.misses ≡ 0) × (result.tried.items ≡ []) }
{
    Tally {
        read_faults: 0,
        write_faults: 0,
        complain_faults: 0,
        misses: 0,
        tried: Vec::new(alloc),
    }
}
