// The names of a table's states, and their numbers.
ghost use Rattle.std.specs.Prelude.{◌≡◌, ◌<◌, ◌≤◌, ℕ, IfOk, IfErr, IfSome, Err, Some, length, vec_len};
ghost use Rattle.std.specs.List.{list_all, list_any, position};
ghost use Rattle.std.specs.Str.{bytes_eq};
ghost use Rattle.quantity.specs.Bytes.{has_repeat, words};
ghost use Rattle.quantity.specs.Names.{is_name};
ghost use Rattle.atomic_face.specs.declared.class.Class.TheVariants.{Table};
ghost use Rattle.atomic_face.specs.Settings.{first_line_off};
ghost use Rattle.atomic_face.specs.TableSettings.{are_states, number_of_name, states_of};
ghost use Rattle.source_text.specs.Shown.{texts};

use crate::read::entries::entry_with;
use atomic_face::{Param, SettleRefusal};
use quantity::name::is_name;
use source_text::words::words;
use std::alloc::Global;

/// The names of the states in order: those that the parameter has, or `idle`. BadParameter with its
/// line where these aren't 1 to 64 different names.
pub(crate) fn read_names(alloc: Global, entries: &[Param]) -> Result<Vec<&[u8]>, SettleRefusal>
    ensures names { IfOk result (λ names. states_of entries.now ≡ Some (texts names.items)) }
    ensures few { IfOk result (λ names. (0 < vec_len names) × (vec_len names ≤ 64)) }
    ensures bad { (line : ℕ) → result ≡ Err (SettleRefusal.BadParameter line)
        → first_line_off Table entries.now ≡ Some line }
{
    let Some(entry) = entry_with(entries, b"states") else {
        return words_of(alloc, b"idle");
    };
    let names = words_of(alloc, entry.value.as_bytes())?;
    if !are_states(&names) {
        return Err(SettleRefusal::BadParameter(entry.line));
    }
    Ok(names)
}

fn words_of(alloc: Global, text: &[u8]) -> Result<Vec<&[u8]>, SettleRefusal>
    ensures words { IfOk result (λ found. texts found.items ≡ words text.now) }
    ensures memory { IfErr result (λ refusal. refusal ≡ SettleRefusal.Memory) }
{
    match words(alloc, text) {
        Ok(found) => Ok(found),
        Err(_) => Err(SettleRefusal::Memory),
    }
}

/// Whether these are 1 to 64 different names.
fn are_states(names: &[&[u8]]) -> bool
    ensures { result ≡ are_states (texts names.now) }
{
    1 <= names.len() && names.len() <= 64 && all_are_names(names) && !has_repeat(names)
}

fn all_are_names(names: &[&[u8]]) -> bool
    ensures { result ≡ list_all (λ name. is_name name.now) names.now }
{
    names.iter().all(|name| is_name(name))
}

fn has_repeat(names: &[&[u8]]) -> bool
    ensures { result ≡ has_repeat (texts names.now) }
{
    let Some((first, rest)) = names.split_first() else {
        return false;
    };
    is_among(rest, first) || has_repeat(rest)
}

fn is_among(names: &[&[u8]], text: &[u8]) -> bool
    ensures { result ≡ list_any (λ name. bytes_eq text.now name.now) names.now }
{
    names.iter().any(|name| text == *name)
}

/// The number of the state with this name, counted from 0.
pub(crate) fn number_in(names: &[&[u8]], text: &[u8]) -> Option<u8>
    requires { length names.now ≤ 64 }
    ensures value { result ≡ number_of_name (texts names.now) text.now }
    ensures within { IfSome result (λ number. number < length names.now) }
{
    let place = place_in(names, text)?;
    Some(place as u8)
}

fn place_in(names: &[&[u8]], text: &[u8]) -> Option<usize>
    ensures value { result ≡ position (λ name. bytes_eq text.now name.now) names.now }
    ensures within { IfSome result (λ place. place < length names.now) }
{
    names.iter().position(|name| text == *name)
}
