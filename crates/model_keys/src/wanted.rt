// How many values go with the words of another key.
ghost use Rattle.std.specs.Prelude.{◌≡◌, ℕ, List};
ghost use Rattle.quantity.specs.Bytes.{words};
ghost use Rattle.source_text.specs.Shown.{texts};
ghost use Rattle.model_text.specs.Keyed as L;
ghost use Rattle.model_walk.specs.ReadValues.{AreValuesIn, AreWordsUnder};
ghost use Rattle.model_keys.specs.Wanted.{are_right, wanted_by, fits, AreWanted};

use crate::names::{are_different_words, are_port_words};
use model_walk::{ReadSection, ReadValue};

/// How many values a key must have.
#[derive(Clone, Copy)]
pub(crate) enum Wanted {
    /// The other key isn't there, so no value is right.
    Nothing,
    /// The other key's value is off its form, so the values are judged one by one.
    Any,
    /// As many as the other key has words.
    Exactly(usize),
}

/// How many values the variables and the further ports of a group want.
#[derive(Clone, Copy)]
pub(crate) struct WantedValues {
    pub(crate) variables: Wanted,
    pub(crate) ports: Wanted,
}

/// What a section wants.
pub(crate) fn wanted_values(section: &ReadSection<'_>) -> WantedValues
    ensures { AreWanted section.now result }
{
    WantedValues {
        variables: wanted_by(section, b"statevariables", false),
        ports: wanted_by(section, b"neighborports", true),
    }
}

/// What the words of a key's value want, which are to be variables or ports.
fn wanted_by(section: &ReadSection<'_>, key: &[u8], are_of_ports: bool) -> Wanted
    requires { AreWordsUnder key.now }
    ensures { result ≡ wanted_by (are_right are_of_ports) (L.value_of key.now section.now) }
{
    let Some(read) = section.first(key) else {
        return Wanted::Nothing;
    };
    let found = read.value.words();
    if are_right(are_of_ports, found) {
        Wanted::Exactly(found.len())
    } else {
        Wanted::Any
    }
}

/// Whether the words of a text are right as ports, or as variables.
fn are_right(are_of_ports: bool, found: &[&[u8]]) -> bool
    ensures { (text : List ℕ) → texts found.now ≡ words text
        → result ≡ are_right are_of_ports text }
{
    if are_of_ports {
        are_port_words(found)
    } else {
        are_different_words(8, found)
    }
}

/// Whether these are values, as many as are wanted.
pub(crate) fn fits(wanted: Wanted, value: &ReadValue<'_>) -> bool
    ensures { (text : List ℕ) → AreValuesIn text value.now → result ≡ fits wanted text }
{
    match wanted {
        Wanted::Nothing => false,
        Wanted::Any => value.are_values(),
        Wanted::Exactly(count) => value.are_values() & (value.values().len() == count),
    }
}
