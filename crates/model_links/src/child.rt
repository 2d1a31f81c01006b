// The ports of a section and of its children.
ghost use Rattle.std.specs.Prelude.{◌≡◌, Some, map, IfOk, OnOk};
ghost use Rattle.source_text.specs.Shown.{texts};
ghost use Rattle.model_text.specs.Keyed.{texts_of};
ghost use Rattle.model_text.specs.Walk as W;
ghost use Rattle.model_walk.specs.ReadValues.{AreWordsUnder};
ghost use Rattle.model_walk.specs.Shown.{item_of};
ghost use Rattle.model_links.specs.PortEnds.{own_key, ports_of_class, ports_of_item, with_item, first_items};

use atomic_face::Class;
use model_walk::item::{class_of, is_atomic, name_of};
use model_walk::names::items;
use model_walk::walked::section_of;
use model_walk::{Item, ReadSection, ReadSections, TextSet};
use quantity::OutOfMemory;
use std::alloc::{AllocError, Global};

/// Where links begin, or where they end.
#[derive(Clone, Copy)]
pub(crate) enum Side {
    /// At inputs of the section, and at outputs of its children.
    From,
    /// At its outputs, and at inputs of its children.
    To,
}

/// The children of a section, the first of each name.
pub(crate) fn first_children<'a>(
    alloc: Global,
    section: &ReadSection<'a>,
) -> Result<Vec<Item<'a>>, OutOfMemory>
    ensures { IfOk result (λ found. map item_of found.items
        ≡ first_items (W.children_of section.now)) }
{
    first_of_names(alloc, section.children())
}

/// The first item of each name.
fn first_of_names<'a>(alloc: Global, items: &[Item<'a>]) -> Result<Vec<Item<'a>>, OutOfMemory>
    ensures { IfOk result (λ found. map item_of found.items ≡ first_items (map item_of items.now)) }
{
    let mut found = Vec::new(alloc);
    let mut names = TextSet::new(alloc);
    for item in items {
        add_item(item, &mut names, &mut found)?;
    }
    Ok(found)
}

/// Puts an item behind the others, unless one of its name is there.
fn add_item<'a>(
    item: &Item<'a>,
    names: &mut TextSet<'a>,
    found: &mut Vec<Item<'a>>,
) -> Result<(), OutOfMemory>
    requires { names.old ≡ map W.item_name (map item_of found.old.items) }
    ensures names { OnOk result (names.new ≡ map W.item_name (map item_of found.new.items)) }
    ensures added { OnOk result (map item_of found.new.items
        ≡ with_item (map item_of found.old.items) (item_of item.now)) }
{
    if names.insert(name_of(item))? {
        found.push(*item).map_err(AllocError::from)?;
    }
    Ok(())
}

/// The ports of a child at which links may begin, or may end.
pub(crate) fn child_ports<'a>(
    alloc: Global,
    sections: &ReadSections<'a>,
    child: &Item<'_>,
    side: Side,
) -> Result<Vec<&'a [u8]>, OutOfMemory>
    ensures { IfOk result (λ ports. texts ports.items
        ≡ ports_of_item side sections.now (Some (item_of child.now))) }
{
    if is_atomic(child) {
        return class_ports(alloc, Class::of_name(class_of(child)), side);
    }
    let Some(section) = section_of(sections, child) else {
        return Ok(Vec::new(alloc));
    };
    match side {
        Side::From => ports(alloc, section, b"out"),
        Side::To => ports(alloc, section, b"in"),
    }
}

/// The same of a child of this class, if there is such a class.
fn class_ports<'a>(
    alloc: Global,
    class: Option<Class>,
    side: Side,
) -> Result<Vec<&'a [u8]>, OutOfMemory>
    ensures { IfOk result (λ ports. texts ports.items ≡ ports_of_class side class) }
{
    match side {
        Side::From => Ok(Vec::from_slice(alloc, &[b"out".as_slice()])?),
        Side::To => match class {
            None => Ok(Vec::new(alloc)),
            Some(class) => Ok(Vec::from_slice(alloc, class.in_ports())?),
        },
    }
}

/// The ports of a section itself at which its links may begin, or may end.
pub(crate) fn own_ports<'a>(
    alloc: Global,
    section: &ReadSection<'a>,
    side: Side,
) -> Result<Vec<&'a [u8]>, OutOfMemory>
    ensures { IfOk result (λ ports. texts ports.items ≡ texts_of (own_key side) section.now) }
{
    match side {
        Side::From => ports(alloc, section, b"in"),
        Side::To => ports(alloc, section, b"out"),
    }
}

/// The words of a section under a key.
fn ports<'a>(
    alloc: Global,
    section: &ReadSection<'a>,
    key: &[u8],
) -> Result<Vec<&'a [u8]>, OutOfMemory>
    requires { AreWordsUnder key.now }
    ensures { IfOk result (λ ports. texts ports.items ≡ texts_of key.now section.now) }
{
    let words = items(alloc, section, key)?;
    Ok(texts(alloc, &words)?)
}

fn texts<'a>(alloc: Global, words: &[Item<'a>]) -> Result<Vec<&'a [u8]>, AllocError>
    ensures { IfOk result (λ found. texts found.items ≡ map (λ i. i.text) (map item_of words.now)) }
{
    words.iter().map(|word| word.text).collect(alloc)
}
