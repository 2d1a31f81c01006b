// The different names of the rules sections that a group names, and which names its rules may use.
ghost use Rattle.std.specs.Prelude.{◌≡◌, map, IfOk, IsTrue};
ghost use Rattle.source_text.specs.Shown.{texts};
ghost use Rattle.rule_syntax.specs.Shown.{names_of};
ghost use Rattle.model_tree.specs.Pull.{distinct};
ghost use Rattle.model_rules.specs.Parts.{number_of_set};

use indexmap::IndexSet;
use model_walk::Item;
use quantity::{Name, Offset, OutOfMemory};
use rule_syntax::Names;
use std::alloc::Global;

/// The different names of these items, numbered in the order in which they came.
pub(crate) fn names_of<'a>(
    alloc: Global,
    items: &[Item<'a>],
) -> Result<IndexSet<&'a [u8]>, OutOfMemory>
    ensures { IfOk result (λ names. texts names.keys
        ≡ distinct (map (λ i. i.text.now) items.now)) }
{
    let mut names = IndexSet::new(alloc);
    for item in items {
        let Ok(_is_new) = names.insert(item.text) else {
            return Err(OutOfMemory);
        };
    }
    Ok(names)
}

/// The number of a name; 0 where it isn't there.
pub(crate) fn number(names: &IndexSet<&[u8]>, name: &[u8]) -> usize
    ensures { result ≡ number_of_set (texts names.now.keys) name.now }
{
    names.get_index_of(name).unwrap_or(0)
}

/// Whether the names are equal, and so is their order.
#[tactic(auto, using(crate::proofs::Whole::same_texts))]
pub(crate) fn are_same_texts(names: &[&[u8]], others: &[&[u8]]) -> bool
    ensures { IsTrue result → texts names.now ≡ texts others.now }
{
    names == others
}

/// Whether the names are equal, and so are their orders. False tells nothing.
pub(crate) fn are_same_names(names: &Names, others: &Names) -> bool
    ensures { IsTrue result → names_of names.now ≡ names_of others.now }
{
    let same_space = names.dims == others.dims;
    let same_offsets = are_same_offsets(&names.offsets, &others.offsets);
    let same_variables = are_same_words(&names.variables, &others.variables);
    let same_ports = are_same_words(&names.ports, &others.ports);
    same_space & same_offsets & same_variables & same_ports
}

fn are_same_offsets(offsets: &[Offset], others: &[Offset]) -> bool
    ensures { IsTrue result → offsets.now ≡ others.now }
{
    if offsets.len() != others.len() {
        return false;
    }
    for i in 0..offsets.len() {
        if !is_same_offset(offsets[i], others[i]) {
            return false;
        }
    }
    true
}

fn is_same_offset(offset: Offset, other: Offset) -> bool
    ensures { IsTrue result → offset ≡ other }
{
    let same_row = offset.row == other.row;
    let same_column = offset.column == other.column;
    same_row & same_column & (offset.plane == other.plane)
}

fn are_same_words(words: &[Name], others: &[Name]) -> bool
    ensures { IsTrue result → words.now ≡ others.now }
{
    if words.len() != others.len() {
        return false;
    }
    for i in 0..words.len() {
        if !is_same_word(&words[i], &others[i]) {
            return false;
        }
    }
    true
}

fn is_same_word(word: &Name, other: &Name) -> bool
    ensures { IsTrue result → word.now ≡ other.now }
{
    word.as_bytes() == other.as_bytes()
}
