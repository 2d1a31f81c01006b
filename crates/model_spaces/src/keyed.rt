// The values of keys, and what is refused of an entry.
ghost use Rattle.std.specs.Prelude.{◌≡◌, IfOk, IfSome};
ghost use Rattle.std.specs.Option.{option_map};
ghost use Rattle.std.specs.Str.{bytes_eq};
ghost use Rattle.ma_lines.specs.InCode.{section_of};
ghost use Rattle.model_text.specs.Keyed as K;
ghost use Rattle.model_text.specs.Trees.{values_of_key};
ghost use Rattle.model_walk.specs.ReadValues.{AreValuesIn};
ghost use Rattle.model_spaces.specs.Tested.{IsLeastWith};

use ma_lines::{Entry, Section};
use model_text::Kind;
use model_walk::entries::first_entry;
use model_walk::least::least;
use model_walk::{ReadEntry, Refused};
use quantity::{Name, OutOfMemory, Value};
use std::alloc::Global;

/// Whether a key has just this value.
pub(crate) fn has_value(section: &Section, key: &[u8], value: &[u8]) -> bool
    ensures { result ≡ K.is_this_value value.now (K.value_of key.now (section_of section.now)) }
{
    match first_entry(section, key) {
        None => false,
        Some(entry) => value == entry.value.as_bytes(),
    }
}

/// Whether an entry has this key.
pub(crate) fn has_key(entry: &Entry, key: &[u8]) -> bool
    ensures { result ≡ bytes_eq entry.now.key key.now }
{
    entry.key.as_bytes() == key
}

/// The lesser of a refusal that was met before and of that of an entry, which is refused unless it
/// is right.
pub(crate) fn least_with_entry(
    first: Option<Refused>,
    entry: &Entry,
    kind: Kind,
    is_right: bool,
) -> Option<Refused>
    ensures { IsLeastWith first (K.at_entry entry.now kind is_right) result }
{
    if is_right {
        return first;
    }
    let now = Refused {
        line: entry.line,
        kind,
    };
    least(first, Some(now))
}

/// The values of the first entry of a key, or `?` for each of so many names where there is none.
pub(crate) fn values(
    alloc: Global,
    first: Option<&ReadEntry<'_>>,
    names: &[Name],
) -> Result<Vec<Value>, OutOfMemory>
    requires { IfSome first (λ r. AreValuesIn r.now.entry.now.value r.now.value) }
    ensures { IfOk result (λ values. values.items
        ≡ values_of_key (option_map (λ r. r.now.entry.now.value) first.entry) names.now) }
{
    match first {
        None => Ok(vec![in alloc; Value::Undefined; names.len()]?),
        Some(read) => Ok(read.value.values().to_vec(alloc)?),
    }
}
