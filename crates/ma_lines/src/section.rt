// Sections of a model file, and the lines that are refused.
use quantity::{OutOfMemory, Text};
use std::alloc::AllocError;

/// A key with its value, and the number of its first line.
#[derive(Drop)]
pub struct Entry {
    pub line: u32,
    pub key: Text,
    pub value: Text,
}

/// A section: the number of its line, its name and its entries in their order.
#[derive(Drop)]
pub struct Section {
    pub line: u32,
    pub name: Text,
    pub entries: Vec<Entry>,
}

/// Why a file isn't cut into sections, with the number of the line.
#[derive(Clone, Copy)]
pub enum LineRefusal {
    /// A byte that isn't allowed, a line that is neither a section's nor an entry's, an entry
    /// before the first section, or an entry whose braces aren't closed.
    BadLine(u32),
    /// A section of a name that stands before.
    DuplicateSection(u32),
    /// There is no memory for the sections.
    Memory,
}

impl From<AllocError> for LineRefusal {
    ghost use Rattle.std.specs.Prelude.{◌≡◌};
    ghost use Rattle.ma_lines.specs.declared.section.LineRefusal.TheVariants.{Memory};

    ghost from_gives = { λ _ refusal. refusal ≡ Memory };

    fn from(_error: AllocError) -> LineRefusal {
        LineRefusal::Memory
    }
}

impl From<OutOfMemory> for LineRefusal {
    ghost use Rattle.std.specs.Prelude.{◌≡◌};
    ghost use Rattle.ma_lines.specs.declared.section.LineRefusal.TheVariants.{Memory};

    ghost from_gives = { λ _ refusal. refusal ≡ Memory };

    fn from(_error: OutOfMemory) -> LineRefusal {
        LineRefusal::Memory
    }
}
