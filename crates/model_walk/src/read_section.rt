// Sections whose entries are read, each once.
ghost use Rattle.std.specs.Prelude.{◌≡◌, map, IfOk, IfSome};
ghost use Rattle.std.specs.List.{find};
ghost use Rattle.std.specs.Option.{option_copied, option_map};
ghost use Rattle.std.specs.Str.{bytes_eq};
ghost use Rattle.ma_lines.specs.InCode.{section_of};
ghost use Rattle.model_text.specs.Keyed as K;
ghost use Rattle.model_text.specs.Walk as W;
ghost use Rattle.model_walk.specs.ReadValues as spec;
ghost use Rattle.model_walk.specs.Shown.{item_of};

use crate::entries::children;
use crate::item::Item;
use crate::read_value::ReadValue;
use ma_lines::{Entry, Section};
use model_text::key::{Form, GROUP_KEYS, Key};
use quantity::OutOfMemory;
use std::alloc::{AllocError, Global};
use std::marker::Model;

/// An entry, the form of its key, where the key has one in its section, and what its value says.
#[derive(Drop)]
pub struct ReadEntry<'a> {
    pub entry: &'a Entry,
    pub form: Option<Form>,
    pub value: ReadValue<'a>,
}

/// A section with what its entries say, and the components that it names.
#[derive(Drop)]
pub struct ReadSection<'a> {
    section: &'a Section,
    entries: Vec<ReadEntry<'a>>,
    children: Vec<Item<'a>>,
}

impl<'a> Model for ReadSection<'a> {
    ghost use Rattle.std.specs.Prelude.{◌≡◌, map};
    ghost use Rattle.ma_lines.specs.Sections.{Section};
    ghost use Rattle.ma_lines.specs.InCode.{section_of};
    ghost use Rattle.model_text.specs.Walk.{children_of};
    ghost use Rattle.model_walk.specs.ReadValues.{AreRead};
    ghost use Rattle.model_walk.specs.Shown.{item_of};

    ghost Value = { Section };

    ghost view = { λ r. section_of r.section.now };

    ghost invariant = { λ r. AreRead r.section.now.name r.section.now.entries.items r.entries.items
        × (map item_of r.children.items ≡ children_of (section_of r.section.now)) };
}

impl<'a> ReadSection<'a> {
    /// Reads each entry of a section.
    pub(crate) fn read(alloc: Global, section: &'a Section) -> Result<ReadSection<'a>, OutOfMemory>
        ensures { IfOk result (λ read. read ≡ section_of section.now) }
    {
        let entries = read_entries(alloc, section)?;
        let children = children(alloc, section)?;
        Ok(ReadSection {
            section,
            entries,
            children,
        })
    }

    /// The section.
    pub fn section(&self) -> &'a Section
        ensures { section_of result.now ≡ self.now }
    {
        self.section
    }

    /// Its entries in their order.
    pub fn entries(&self) -> &[ReadEntry<'a>]
        ensures { spec.AreRead self.now.name self.now.entries result.now }
    {
        &self.entries
    }

    /// The items of its `components`; none of a group.
    pub fn children(&self) -> &[Item<'a>]
        ensures { map item_of result.now ≡ W.children_of self.now }
    {
        &self.children
    }

    /// The first entry of a key.
    pub fn first(&self, key: &[u8]) -> Option<&ReadEntry<'a>>
        ensures entry { option_map (λ r. r.now.entry.now) result ≡ K.first_entry key.now self.now }
        ensures read { IfSome result (λ r. spec.IsReadUnder self.now.name key.now
            r.now.entry.now.value r.now.value) }
    {
        found(&self.entries, key)
    }
}

/// The first of these entries that has a key.
fn found<'b, 'a>(entries: &'b [ReadEntry<'a>], key: &[u8]) -> Option<&'b ReadEntry<'a>>
    ensures { option_copied result ≡ find (λ r. bytes_eq r.entry.now.key key.now) entries.now }
{
    entries.iter().find(|read| read.entry.key.as_bytes() == key)
}

/// The entries of a section, read.
fn read_entries<'a>(alloc: Global, section: &'a Section) -> Result<Vec<ReadEntry<'a>>, OutOfMemory>
    ensures { IfOk result (λ list. spec.AreRead section.now.name section.now.entries.items
        list.items) }
{
    let mut entries = Vec::with_capacity(alloc, section.entries.len())?;
    for entry in &section.entries {
        let read = read_entry(alloc, section.name.as_bytes(), entry)?;
        entries.push(read).map_err(AllocError::from)?;
    }
    Ok(entries)
}

/// An entry in a section of this name, read.
fn read_entry<'a>(
    alloc: Global,
    name: &[u8],
    entry: &'a Entry,
) -> Result<ReadEntry<'a>, OutOfMemory>
    ensures entry { IfOk result (λ read. read.entry ≡ entry.entry) }
    ensures read { IfOk result (spec.IsRead name.now) }
{
    let form = form_among(&GROUP_KEYS, entry.key.as_bytes());
    let value = value_by(alloc, name, form, entry.value.as_bytes())?;
    Ok(ReadEntry { entry, form, value })
}

/// A text read by a form, where there is one.
fn value_by<'a>(
    alloc: Global,
    name: &[u8],
    form: Option<Form>,
    text: &'a [u8],
) -> Result<ReadValue<'a>, OutOfMemory>
    ensures { IfOk result (λ read. IfSome form (λ form. spec.IsReadBy name.now form text.now read)) }
{
    match form {
        None => Ok(ReadValue::Text),
        Some(form) => ReadValue::read(alloc, name, form, text),
    }
}

/// The form that stands with a key among these.
pub fn form_among(keys: &[Key], word: &[u8]) -> Option<Form>
    ensures { result ≡ spec.form_among (spec.rows_of keys.now) word.now }
{
    found_form(keys, word)
}

fn found_form(keys: &[Key], word: &[u8]) -> Option<Form>
    ensures { result ≡ option_map (λ k. k.2) (find (λ k. bytes_eq k.0.now word.now) keys.now) }
{
    keys.iter().find(|key| key.0 == word).map(|key| key.2)
}
