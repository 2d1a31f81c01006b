// An entry whose braces may be open.
ghost use Rattle.std.specs.Prelude.{◌≡◌, ◌≢◌, ◌+◌, ◌<◌, ◌^◌, false, [], length, OnOk, IfOk};
ghost use Rattle.std.specs.Bool.{then_some};
ghost use Rattle.std.specs.Option.{option_map};
ghost use Rattle.quantity.specs.ByteNames.{opening_bracket};
ghost use Rattle.quantity.specs.Bytes.{begins_with};
ghost use Rattle.ma_lines.specs.Sections.{is_entry};
ghost use Rattle.ma_lines.specs.Reading.{whole, entry_with_text, opened_by};
ghost use Rattle.ma_lines.specs.Reader.{opened_of, line_of};

use crate::parts::{braces_after, folded, keeps_letters};
use crate::section::Entry;
use quantity::digits::cut_at;
use quantity::{OutOfMemory, Text};
use source_text::line::trimmed;
use std::alloc::{AllocError, Global};

/// An entry whose braces may be open, with the letters of its value as they stand in the file.
#[derive(Drop)]
pub(crate) struct OpenEntry {
    pub(crate) line: u32,
    pub(crate) key: Vec<u8>,
    pub(crate) value: Vec<u8>,
    pub(crate) braces: u64,
}

impl OpenEntry {
    /// The entry that begins in a line; None where no key stands before a colon.
    pub(crate) fn begin(
        alloc: Global,
        line: u32,
        text: &[u8],
    ) -> Result<Option<OpenEntry>, OutOfMemory>
        requires { begins_with opening_bracket text.now ≡ false }
        ensures { IfOk result (λ begun. option_map opened_of begun ≡ then_some
            (is_entry (line_of line text.now)) (opened_by (line_of line text.now))) }
    {
        let (before, value) = cut_at(b':', text);
        let key = trimmed(before);
        // without a colon all of the text stands before it
        if before.len() == text.len() || key.is_empty() {
            return Ok(None);
        }
        Ok(Some(OpenEntry {
            line,
            key: folded(alloc, key)?,
            value: Vec::from_slice(alloc, trimmed(value))?,
            braces: braces_after(0, value),
        }))
    }

    /// Joins a line with one space.
    pub(crate) fn join(&mut self, text: &[u8]) -> Result<(), OutOfMemory>
        requires filled { text.now ≢ [] }
        requires few { self.old.braces + length text.now < 2 ^ 64 }
        ensures { OnOk result (opened_of self.new ≡ entry_with_text (opened_of self.old) text.now) }
    {
        self.value.push(b' ').map_err(AllocError::from)?;
        self.value.extend_from_slice(text)?;
        self.braces = braces_after(self.braces, text);
        Ok(())
    }

    /// The entry as it is kept.
    pub(crate) fn finish(self) -> Entry
        ensures { result ≡ whole (opened_of self) }
    {
        let mut value = self.value;
        if !keeps_letters(self.key.as_slice()) {
            value.as_mut_slice().make_ascii_lowercase();
        }
        Entry {
            line: self.line,
            key: Text::from(self.key),
            value: Text::from(value),
        }
    }
}
