// A file read line by line: the sections so far, and the entry whose braces are open.
ghost use Rattle.std.specs.Prelude.{◌≡◌, ◌≢◌, ◌+◌, ◌<◌, ◌^◌, true, [], ◌∷◌, ◌++◌, length, OnOk, IfErr};
ghost use Rattle.std.specs.List.{list_all};
ghost use Rattle.std.specs.Option.{unwrap_or, ForSome};
ghost use Rattle.quantity.specs.ByteNames.{closing_bracket, opening_bracket};
ghost use Rattle.quantity.specs.Bytes.{inside};
ghost use Rattle.source_text.specs.Lines.{text_of_line};
ghost use Rattle.ma_lines.specs.Sections.{is_allowed, name_in, heading_refused};
ghost use Rattle.ma_lines.specs.Reading.{reading_with_entry, begun_by, next, refused_in, braces_in, at_end, names};

use crate::open_entry::OpenEntry;
use crate::parts::{all_are_allowed, is_heading, section_name};
use crate::section::LineRefusal;
use crate::sections::Sections;
use quantity::OutOfMemory;
use source_text::line::text_of_line;
use std::alloc::Global;

/// The sections of the lines read so far.
#[derive(Drop)]
pub(crate) struct Reader {
    pub(crate) sections: Sections,
    pub(crate) open_entry: Option<OpenEntry>,
    ghost is_open: { ForSome open_entry (λ e. 0 < e.braces) },
}

impl Reader {
    ghost use Rattle.ma_lines.specs.Reader.{opened_of, reading_of, line_of};

    /// No line is read yet.
    pub(crate) fn new(alloc: Global) -> Reader
        ensures { reading_of result ≡ record { sections = []; open_entry = None } }
    {
        Reader {
            sections: Sections::new(alloc),
            open_entry: None,
        }
    }

    /// Takes a line as it stands in the file, with its comment and outer blanks.
    pub(crate) fn take_line(
        &mut self,
        alloc: Global,
        number: u64,
        line: &[u8],
    ) -> Result<(), LineRefusal>
        requires numbered { 0 < length line.now → number < 2 ^ 32 }
        requires few { braces_in (reading_of self.old).open_entry + length line.now < 2 ^ 64 }
        ensures allowed { OnOk result (refused_in (reading_of self.old)
            (line_of number (text_of_line line.now)) ≡ None) }
        ensures taken { OnOk result (reading_of self.new
            ≡ next (reading_of self.old) (line_of number (text_of_line line.now))) }
        ensures refused { IfErr result (λ why. why ≢ LineRefusal.Memory
            → refused_in (reading_of self.old) (line_of number (text_of_line line.now))
            ≡ Some why) }
    {
        let text = text_of_line(line);
        if text.is_empty() {
            return Ok(());
        }
        self.take(alloc, number as u32, text)
    }

    /// Takes the text of a line that isn't empty.
    fn take(&mut self, alloc: Global, line: u32, text: &[u8]) -> Result<(), LineRefusal>
        requires filled { text.now ≢ [] }
        requires few { braces_in (reading_of self.old).open_entry + length text.now < 2 ^ 64 }
        ensures allowed { OnOk result (refused_in (reading_of self.old) (line_of line text.now)
            ≡ None) }
        ensures taken { OnOk result (reading_of self.new
            ≡ next (reading_of self.old) (line_of line text.now)) }
        ensures refused { IfErr result (λ why. why ≢ LineRefusal.Memory
            → refused_in (reading_of self.old) (line_of line text.now) ≡ Some why) }
    {
        if !all_are_allowed(text) {
            return Err(LineRefusal::BadLine(line));
        }
        match self.open_entry.take() {
            Some(mut entry) => {
                entry.join(text)?;
                self.settle(entry)?;
                Ok(())
            }
            None => self.begin(alloc, line, text),
        }
    }

    /// Begins a section or an entry.
    fn begin(&mut self, alloc: Global, line: u32, text: &[u8]) -> Result<(), LineRefusal>
        requires filled { text.now ≢ [] }
        requires between { self.old.open_entry ≡ None }
        requires allowed { list_all is_allowed text.now ≡ true }
        ensures allowed { OnOk result (refused_in (reading_of self.old) (line_of line text.now)
            ≡ None) }
        ensures taken { OnOk result (reading_of self.new
            ≡ begun_by self.old.sections (line_of line text.now)) }
        ensures refused { IfErr result (λ why. why ≢ LineRefusal.Memory
            → refused_in (reading_of self.old) (line_of line text.now) ≡ Some why) }
    {
        if is_heading(text) {
            return self.begin_section(alloc, line, text);
        }
        if self.sections.is_empty() {
            return Err(LineRefusal::BadLine(line));
        }
        let Some(entry) = OpenEntry::begin(alloc, line, text)? else {
            return Err(LineRefusal::BadLine(line));
        };
        self.settle(entry)?;
        Ok(())
    }

    fn begin_section(&mut self, alloc: Global, line: u32, text: &[u8]) -> Result<(), LineRefusal>
        ensures new_name { OnOk result (heading_refused (names self.old.sections) line
            (name_in (inside opening_bracket closing_bracket text.now)) ≡ None) }
        ensures begun { OnOk result (self.new.sections
            ≡ self.old.sections ++ record {
              line = line;
              name = unwrap_or
                  (name_in (inside opening_bracket closing_bracket text.now)) [];
              entries = [];
            } ∷ []) }
        ensures between { OnOk result (self.new.open_entry ≡ self.old.open_entry) }
        ensures refused { IfErr result (λ why. why ≢ LineRefusal.Memory
            → heading_refused (names self.old.sections) line
            (name_in (inside opening_bracket closing_bracket text.now)) ≡ Some why) }
    {
        let Some(name) = section_name(alloc, text)? else {
            return Err(LineRefusal::BadLine(line));
        };
        self.sections.begin(alloc, line, name)
    }

    /// Puts an entry into the last section once its braces are closed, and else keeps it open.
    fn settle(&mut self, entry: OpenEntry) -> Result<(), OutOfMemory>
        requires { self.old.open_entry ≡ None }
        ensures { OnOk result
            (reading_of self.new ≡ reading_with_entry self.old.sections (opened_of entry)) }
    {
        if entry.braces == 0 {
            self.sections.add(entry.finish())?;
        } else {
            self.open_entry = Some(entry);
        }
        Ok(())
    }

    /// The sections, where no entry is open.
    pub(crate) fn finish(self) -> Result<Sections, LineRefusal>
        ensures { result ≡ at_end (reading_of self).sections (reading_of self).open_entry }
    {
        let Reader {
            sections,
            open_entry,
        } = self;
        match open_entry {
            Some(entry) => Err(LineRefusal::BadLine(entry.line)),
            None => Ok(sections),
        }
    }
}
