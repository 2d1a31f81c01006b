// The takes of a table.
ghost use Rattle.std.specs.Prelude.{◌≡◌, ◌<◌, ◌≤◌, ◌++◌, IfOk, IfErr, IfSome, OnOk, All, [], ◌∷◌, option_to_list, length, codes};
ghost use Rattle.std.specs.List.{filter_map, flat_map};
ghost use Rattle.std.specs.Option.{is_some, option_map};
ghost use Rattle.quantity.specs.Bytes.{words};
ghost use Rattle.atomic_face.specs.Settings.{least_line};
ghost use Rattle.atomic_face.specs.TableSettings.{line_unless, take_in, take_of_words, with_key};
ghost use Rattle.source_text.specs.Shown.{texts};
ghost use Rattle.state_tables.specs.Settings.{take_words, IsTakeOf};

use crate::read::names::number_in;
use crate::read::words::{four_words, wanted_of};
use crate::settings::Take;
use atomic_face::params::least;
use atomic_face::{Class, Param, SettleRefusal};
use std::alloc::Global;

/// The takes in order, and the least line of a take that is off its form.
pub(crate) fn read_takes(
    alloc: Global,
    names: &[&[u8]],
    entries: &[Param],
) -> Result<(Vec<Take>, Option<u32>), SettleRefusal>
    requires { length names.now ≤ 64 }
    ensures takes { IfOk result (λ read. flat_map take_words read.0.items
        ≡ flat_map (λ ws. ws) (filter_map (take_in (texts names.now))
        (with_key (codes "take") entries.now))) }
    ensures within { IfOk result (λ read. All (IsTakeOf (length names.now)) read.0.items) }
    ensures line { IfOk result (λ read. read.1
        ≡ least_line (flat_map (λ e. line_unless (is_some (take_in (texts names.now) e)) e)
        (with_key (codes "take") entries.now))) }
    ensures memory { IfErr result (λ refusal. refusal ≡ SettleRefusal.Memory) }
{
    let mut takes = Vec::new(alloc);
    let mut first = None;
    for entry in entries {
        first = least(first, read_take(names, entry, &mut takes)?);
    }
    Ok((takes, first))
}

/// Reads a parameter that may be a take, and gives its line where it is one that is off its form.
fn read_take(
    names: &[&[u8]],
    entry: &Param,
    takes: &mut Vec<Take>,
) -> Result<Option<u32>, SettleRefusal>
    requires { length names.now ≤ 64 }
    ensures takes { OnOk result (flat_map take_words takes.new.items
        ≡ flat_map take_words takes.old.items
        ++ flat_map (λ ws. ws) (filter_map (take_in (texts names.now))
        (with_key (codes "take") (entry.now ∷ [])))) }
    ensures within { All (IsTakeOf (length names.now)) takes.old.items
        → All (IsTakeOf (length names.now)) takes.new.items }
    ensures line { IfOk result (λ line. option_to_list line
        ≡ flat_map (λ e. line_unless (is_some (take_in (texts names.now) e)) e)
        (with_key (codes "take") (entry.now ∷ []))) }
    ensures memory { IfErr result (λ refusal. refusal ≡ SettleRefusal.Memory) }
{
    if entry.key.as_bytes() != b"take".as_slice() {
        return Ok(None);
    }
    let Some(take) = take_of(names, entry.value.as_bytes()) else {
        return Ok(Some(entry.line));
    };
    match takes.extend_from_slice(&[take]) {
        Ok(()) => Ok(None),
        Err(_) => Err(SettleRefusal::Memory),
    }
}

fn take_of(names: &[&[u8]], text: &[u8]) -> Option<Take>
    requires { length names.now ≤ 64 }
    ensures value { option_map take_words result
        ≡ take_of_words (texts names.now) (words text.now) }
    ensures within { IfSome result (IsTakeOf (length names.now)) }
{
    let (state, port, wanted, next) = four_words(text)?;
    let state = number_in(names, state)?;
    let port = Class::Table.in_port(port)?;
    let wanted = wanted_of(wanted)?;
    let next = number_in(names, next)?;
    Some(Take {
        state,
        port,
        wanted,
        next,
    })
}
