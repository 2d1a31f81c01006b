// All sections of a file, read, and found by their names.
ghost use Rattle.std.specs.Prelude.{◌≡◌, IfOk};
ghost use Rattle.std.specs.Option.{option_map};
ghost use Rattle.model_text.specs.Keyed as K;

use crate::read_section::ReadSection;
use ma_lines::Sections;
use quantity::OutOfMemory;
use std::alloc::{AllocError, Global};
use std::marker::Model;

/// The sections of a file, with what their entries say.
#[derive(Drop)]
pub struct ReadSections<'a> {
    sections: &'a Sections,
    read: Vec<ReadSection<'a>>,
}

impl<'a> Model for ReadSections<'a> {
    ghost use Rattle.std.specs.Prelude.{◌≡◌, List};
    ghost use Rattle.ma_lines.specs.Sections.{Section};

    ghost Value = { List Section };

    ghost view = { λ r. r.sections.now };

    ghost invariant = { λ r. r.read.items ≡ r.sections.now };
}

impl<'a> ReadSections<'a> {
    /// Reads each entry of each section.
    pub fn read(alloc: Global, sections: &'a Sections) -> Result<ReadSections<'a>, OutOfMemory>
        ensures { IfOk result (λ read. read ≡ sections.now) }
    {
        let read = read_all(alloc, sections)?;
        Ok(ReadSections { sections, read })
    }

    /// The section of this name.
    #[tactic(auto, using(crate::proofs::Named::section_at, crate::proofs::Named::no_section))]
    pub fn named(&self, name: &[u8]) -> Option<&ReadSection<'a>>
        ensures { option_map (λ r. r.now) result ≡ K.section_named self.now name.now }
    {
        let at = self.sections.find(name)?;
        Some(&self.read[at])
    }

    /// The sections as they stand in the file.
    pub fn sections(&self) -> &'a Sections
        ensures { result.now ≡ self.now }
    {
        self.sections
    }
}

/// These sections, read, in their order.
fn read_all<'a>(alloc: Global, sections: &'a Sections) -> Result<Vec<ReadSection<'a>>, OutOfMemory>
    ensures { IfOk result (λ all. all.items ≡ sections.now) }
{
    let mut all = Vec::with_capacity(alloc, sections.len())?;
    for at in 0..sections.len() {
        let read = ReadSection::read(alloc, sections.section(at))?;
        all.push(read).map_err(AllocError::from)?;
    }
    Ok(all)
}
