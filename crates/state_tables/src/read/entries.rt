// Parameters by their keys, and the lines of those that are off their form.
ghost use Rattle.std.specs.Prelude.{◌≡◌, ◌≤◌, [], ◌∷◌, length, codes};
ghost use Rattle.std.specs.List.{find, flat_map};
ghost use Rattle.std.specs.Option.{is_some, option_copied};
ghost use Rattle.std.specs.Str.{bytes_eq};
ghost use Rattle.quantity.specs.Bytes.{is_among};
ghost use Rattle.atomic_face.specs.Settings.{least_line};
ghost use Rattle.atomic_face.specs.TableSettings.{line_unless, number_of_name, one_too_many, with_key};
ghost use Rattle.source_text.specs.Shown.{texts};
ghost use Rattle.state_tables.specs.Reading.{is_initial_off};

use crate::read::names::number_in;
use atomic_face::Param;
use atomic_face::params::least;

/// The first parameter with this key.
pub(crate) fn entry_with<'a>(entries: &'a [Param], key: &[u8]) -> Option<&'a Param>
    ensures { option_copied result ≡ find (λ e. bytes_eq e.key key.now) entries.now }
{
    entries.iter().find(|entry| entry.key.as_bytes() == key)
}

/// The least line of an initial state that is none of these.
pub(crate) fn initial_off(names: &[&[u8]], entries: &[Param]) -> Option<u32>
    requires { length names.now ≤ 64 }
    ensures { result ≡ least_line (flat_map
        (λ e. line_unless (is_some (number_of_name (texts names.now) e.value)) e)
        (with_key (codes "initial") entries.now)) }
{
    let mut first = None;
    for entry in entries {
        if is_initial_off(names, entry) {
            first = least(first, Some(entry.line));
        }
    }
    first
}

fn is_initial_off(names: &[&[u8]], entry: &Param) -> bool
    requires { length names.now ≤ 64 }
    ensures { result ≡ is_initial_off (texts names.now) entry.now }
{
    entry.key.as_bytes() == b"initial".as_slice()
        && number_in(names, entry.value.as_bytes()).is_none()
}

/// The line of the 1025th hold or take.
pub(crate) fn one_too_many(entries: &[Param]) -> Option<u32>
    ensures { result ≡ least_line (one_too_many entries.now) }
{
    let mut left: u16 = 1024;
    for entry in entries {
        if is_hold_or_take(entry) {
            if left == 0 {
                return Some(entry.line);
            }
            left -= 1;
        }
    }
    None
}

fn is_hold_or_take(entry: &Param) -> bool
    ensures { result ≡ is_among (codes "hold" ∷ codes "take" ∷ []) entry.now.key }
{
    entry.key.as_bytes() == b"hold".as_slice() || entry.key.as_bytes() == b"take".as_slice()
}
