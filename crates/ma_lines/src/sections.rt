// The sections of a model file, found by their names.
ghost use Rattle.std.specs.Prelude.{◌≡◌, ◌≢◌, ◌<◌, ◌↔◌, IsTrue, [], ◌∷◌, ◌++◌, length, position, slice_get, OnOk, IfErr, IfSome};
ghost use Rattle.std.specs.Str.{bytes_eq};
ghost use Rattle.ma_lines.specs.InCode.{section_of};
ghost use Rattle.ma_lines.specs.Sections.{heading_refused};
ghost use Rattle.ma_lines.specs.Reading.{names, with_entry};

use crate::section::{Entry, LineRefusal, Section};
use indexmap::IndexMap;
use quantity::{OutOfMemory, Text};
use std::alloc::Global;
use std::marker::Model;

/// The sections of a file, in their order. No two have one name.
#[derive(Drop)]
pub struct Sections {
    by_name: IndexMap<Vec<u8>, Section>,
}

impl Model for Sections {
    ghost use Rattle.std.specs.Prelude.{◌≡◌, List, map};
    ghost use Rattle.ma_lines.specs.Sections.{Section};
    ghost use Rattle.ma_lines.specs.InCode.{section_of};

    ghost Value = { List Section };

    ghost view = { λ s. map (λ e. section_of e.1) s.by_name.entries };

    ghost invariant = { λ s. map (λ e. e.0.items) s.by_name.entries
        ≡ map (λ e. e.1.name) s.by_name.entries };
}

impl Sections {
    /// How many sections there are.
    pub fn len(&self) -> usize
        ensures { result ≡ length self.now }
    {
        self.by_name.len()
    }

    /// Whether there is no section.
    pub fn is_empty(&self) -> bool
        ensures { IsTrue result ↔ (self.now ≡ []) }
    {
        self.by_name.is_empty()
    }

    /// The index of the section of this name; None exactly where there is none.
    pub fn find(&self, name: &[u8]) -> Option<usize>
        ensures first { result ≡ position (λ s. bytes_eq name.now s.name) self.now }
        ensures within { IfSome result (λ at. at < length self.now) }
    {
        self.by_name.get_index_of(name)
    }

    /// The section at this index.
    pub fn section(&self, at: usize) -> &Section
        requires { at < length self.now }
        ensures { slice_get self.now at ≡ Some (section_of result.now) }
    {
        &self.by_name[at]
    }

    /// No section.
    pub(crate) fn new(alloc: Global) -> Sections
        ensures { result ≡ [] }
    {
        Sections {
            by_name: IndexMap::new(alloc),
        }
    }

    /// Begins a section of this name, unless there is one.
    pub(crate) fn begin(
        &mut self,
        alloc: Global,
        line: u32,
        name: Vec<u8>,
    ) -> Result<(), LineRefusal>
        ensures new_name { OnOk result (heading_refused (names self.old) line (Some name.items)
            ≡ None) }
        ensures begun { OnOk result (self.new
            ≡ self.old ++ record { line = line; name = name.items; entries = [] } ∷ []) }
        ensures refused { IfErr result (λ why. why ≢ LineRefusal.Memory
            → heading_refused (names self.old) line (Some name.items) ≡ Some why) }
    {
        if self.by_name.contains_key(name.as_slice()) {
            return Err(LineRefusal::DuplicateSection(line));
        }
        let section = Section {
            line,
            name: Text::copy(alloc, name.as_slice())?,
            entries: Vec::new(alloc),
        };
        let Ok(_absent) = self.by_name.insert(name, section) else {
            return Err(LineRefusal::Memory);
        };
        Ok(())
    }

    /// Puts an entry behind those of the last section, where there is one.
    pub(crate) fn add(&mut self, entry: Entry) -> Result<(), OutOfMemory>
        ensures { OnOk result (self.new ≡ with_entry entry self.old) }
    {
        let Some(last) = self.by_name.last_mut() else {
            return Ok(());
        };
        let Ok(()) = last.entries.push(entry) else {
            return Err(OutOfMemory);
        };
        Ok(())
    }
}
