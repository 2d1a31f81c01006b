// The words of a key, as they were read, and names.
ghost use Rattle.std.specs.Prelude.{◌≡◌, ◌++◌, true, map, IfOk, OnOk};
ghost use Rattle.std.specs.Str.{bytes_eq};
ghost use Rattle.quantity.specs.Bytes.{words};
ghost use Rattle.model_text.specs.Keyed.{items_of, texts_of};
ghost use Rattle.model_walk.specs.ReadValues.{AreWordsUnder, words_in};
ghost use Rattle.model_walk.specs.Shown.{item_of, items_at};

use crate::item::Item;
use crate::read_section::{ReadEntry, ReadSection};
use quantity::{Name, OutOfMemory};
use std::alloc::{AllocError, Global};

/// The words of the values of a key, in their order.
pub fn items<'a>(
    alloc: Global,
    section: &ReadSection<'a>,
    key: &[u8],
) -> Result<Vec<Item<'a>>, OutOfMemory>
    requires { AreWordsUnder key.now }
    ensures { IfOk result (λ found. map item_of found.items ≡ items_of key.now section.now) }
{
    let mut found = Vec::new(alloc);
    for read in section.entries() {
        add_words(read, key, &mut found)?;
    }
    Ok(found)
}

/// Appends the words of an entry, where it has this key.
fn add_words<'a>(
    read: &ReadEntry<'a>,
    key: &[u8],
    found: &mut Vec<Item<'a>>,
) -> Result<(), OutOfMemory>
    requires { bytes_eq read.now.entry.now.key key.now ≡ true
        → words_in read.now.value ≡ words read.now.entry.now.value }
    ensures { OnOk result (map item_of found.new.items
        ≡ map item_of found.old.items ++ items_at key.now read.now.entry.now) }
{
    if read.entry.key.as_bytes() != key {
        return Ok(());
    }
    let line = read.entry.line;
    for text in read.value.words() {
        found.push(Item { line, text }).map_err(AllocError::from)?;
    }
    Ok(())
}

/// The words of a key as names.
pub fn names(alloc: Global, section: &ReadSection<'_>, key: &[u8]) -> Result<Vec<Name>, OutOfMemory>
    requires { AreWordsUnder key.now }
    ensures { IfOk result (λ names. names.items ≡ texts_of key.now section.now) }
{
    let words = items(alloc, section, key)?;
    let mut names = Vec::new(alloc);
    for word in &words {
        let name = known_name(alloc, word.text)?;
        names.push(name).map_err(AllocError::from)?;
    }
    Ok(names)
}

/// The name that a text is. Memory alone can be wanting: the walk and the phase of keys refuse
/// words that are no names.
pub fn known_name(alloc: Global, text: &[u8]) -> Result<Name, OutOfMemory>
    ensures { IfOk result (λ name. name ≡ text.now) }
{
    match Name::parse(alloc, text) {
        Ok(name) => Ok(name),
        Err(_) => Err(OutOfMemory),
    }
}
