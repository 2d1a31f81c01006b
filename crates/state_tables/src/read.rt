// The settings that parameters give a table.
ghost use Rattle.std.specs.Prelude.{◌≡◌, ◌<◌, ◌≤◌, ℕ, IsTrue, IfOk, Err, Some, None, length, pos};
ghost use Rattle.atomic_face.specs.declared.class.Class.TheVariants.{Table};
ghost use Rattle.atomic_face.specs.Once.{are_once};
ghost use Rattle.atomic_face.specs.Settings.{first_line_off};
ghost use Rattle.atomic_face.specs.TableSettings.{initial_word, table_settings_of};
ghost use Rattle.source_text.specs.Shown.{texts};
ghost use Rattle.state_tables.specs.Settings.{words_of, AreSettings};

mod entries;
mod holds;
mod names;
mod takes;
mod words;

use crate::read::entries::{entry_with, initial_off, one_too_many};
use crate::read::holds::read_holds;
use crate::read::names::{number_in, read_names};
use crate::read::takes::read_takes;
use crate::settings::TableSettings;
use atomic_face::params::least;
use atomic_face::{Param, SettleRefusal};
use std::alloc::Global;

/// The settings that parameters give a table. BadParameter with the least line of a parameter that
/// is off its form; it comes exactly where there is such a line.
pub(crate) fn read_settings(
    alloc: Global,
    entries: &[Param],
) -> Result<TableSettings, SettleRefusal>
    requires { IsTrue (are_once Table entries.now) }
    ensures settings { IfOk result (λ s. words_of s ≡ table_settings_of entries.now) }
    ensures sound { IfOk result AreSettings }
    ensures right { IfOk result (λ _. first_line_off Table entries.now ≡ None) }
    ensures bad { (line : ℕ) → result ≡ Err (SettleRefusal.BadParameter line)
        → first_line_off Table entries.now ≡ Some line }
{
    let names = read_names(alloc, entries)?;
    let states = names.as_slice();
    let (holds, hold_off) = read_holds(alloc, states, entries)?;
    let (takes, take_off) = read_takes(alloc, states, entries)?;
    let in_order = least(least(initial_off(states, entries), hold_off), take_off);
    if let Some(line) = least(in_order, one_too_many(entries)) {
        return Err(SettleRefusal::BadParameter(line));
    }
    Ok(TableSettings {
        initial: initial_in(states, entries),
        holds,
        takes,
    })
}

/// The number of the state that a table starts in: the one that the parameter names, or the first.
fn initial_in(names: &[&[u8]], entries: &[Param]) -> u8
    requires some { 0 < length names.now }
    requires few { length names.now ≤ 64 }
    ensures value { pos result ≡ initial_word (texts names.now) entries.now }
    ensures within { result < length names.now }
{
    let Some(entry) = entry_with(entries, b"initial") else {
        return 0;
    };
    number_in(names, entry.value.as_bytes()).unwrap_or(0)
}
