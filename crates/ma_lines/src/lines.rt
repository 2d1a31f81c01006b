// A model file, cut into sections.
ghost use Rattle.std.specs.Prelude.{◌≡◌, ◌≢◌, ◌<◌, ◌^◌, length};
ghost use Rattle.ma_lines.specs.Sections.{sections_of};

use crate::reader::Reader;
use crate::section::LineRefusal;
use crate::sections::Sections;
use std::alloc::Global;

/// The reading of the lines of a file.
pub struct Lines;

impl Lines {
    /// The sections of a file, with their entries.
    ///
    /// The first line that is refused counts: BadLine, a line with a byte that isn't allowed, or
    /// one that is neither a section's nor an entry's, or an entry's before the first section;
    /// DuplicateSection, a section whose name stands before. BadLine is also an entry whose braces
    /// are open at the end of the file, with the number of its first line. Memory, there is no
    /// memory for the sections.
    pub fn read(alloc: Global, bytes: &[u8]) -> Result<Sections, LineRefusal>
        requires { length bytes.now < 2 ^ 32 }
        ensures { result ≢ Err LineRefusal.Memory → result ≡ sections_of bytes.now }
    {
        let mut reader = Reader::new(alloc);
        let mut number: u64 = 0;
        for line in bytes.split(|b| b'\n' == *b) {
            number += 1;
            reader.take_line(alloc, number, line)?;
        }
        reader.finish()
    }
}
