// The holds of a table.
ghost use Rattle.std.specs.Prelude.{◌≡◌, ◌<◌, ◌≤◌, ◌++◌, ℕ, List, None, map, IfOk, IfErr, IfSome, All, [], Some, length, vec_len, option_to_list, codes};
ghost use Rattle.std.specs.Option.{option_map};
ghost use Rattle.quantity.specs.Bytes.{words};
ghost use Rattle.atomic_face.specs.Settings.{least_line};
ghost use Rattle.atomic_face.specs.TableSettings.{HoldWords, hold_in, hold_of_words, holds_of, holds_off, is_new_hold, with_key};
ghost use Rattle.source_text.specs.Shown.{texts};
ghost use Rattle.state_tables.specs.Settings.{IsHoldOf};
ghost use Rattle.state_tables.specs.Reading.{hold_lines, hold_read, holds_with, HasHolds};

use crate::read::names::number_in;
use crate::read::words::{four_words, shown_of};
use crate::settings::Hold;
use atomic_face::params::least;
use atomic_face::{Param, SettleRefusal};
use quantity::Time;
use std::alloc::{AllocError, Global};

/// What each of the states holds, the first hold of each, and the least line of a hold that is off
/// its form or whose state has one already.
pub(crate) fn read_holds(
    alloc: Global,
    names: &[&[u8]],
    entries: &[Param],
) -> Result<(Vec<Option<Hold>>, Option<u32>), SettleRefusal>
    requires { length names.now ≤ 64 }
    ensures count { IfOk result (λ read. length read.0.items ≡ length names.now) }
    ensures holds { IfOk result (λ read.
        HasHolds read.0.items (holds_of (texts names.now) entries.now)) }
    ensures within { IfOk result (λ read.
        All (λ h. IfSome h (IsHoldOf (length names.now))) read.0.items) }
    ensures line { IfOk result (λ read. read.1
        ≡ least_line (holds_off (texts names.now) [] (with_key (codes "hold") entries.now))) }
    ensures memory { IfErr result (λ refusal. refusal ≡ SettleRefusal.Memory) }
{
    let Ok(mut holds) = none_for_each(alloc, names) else {
        return Err(SettleRefusal::Memory);
    };
    let mut first = None;
    for entry in entries {
        first = least(first, read_hold(names, entry, &mut holds));
    }
    Ok((holds, first))
}

fn none_for_each(alloc: Global, names: &[&[u8]]) -> Result<Vec<Option<Hold>>, AllocError>
    ensures { IfOk result (λ holds. holds.items ≡ map (λ _. None) names.now) }
{
    names.iter().map(|_| None).collect(alloc)
}

/// Reads a parameter that may be a hold, and gives its line where it is one that is off its form or
/// whose state has a hold already.
fn read_hold(names: &[&[u8]], entry: &Param, holds: &mut Vec<Option<Hold>>) -> Option<u32>
    requires few { length names.now ≤ 64 }
    requires each { length holds.old.items ≡ length names.now }
    ensures count { length holds.new.items ≡ length names.now }
    ensures holds { (before : List HoldWords) → HasHolds holds.old.items before
        → HasHolds holds.new.items (holds_with (texts names.now) before entry.now) }
    ensures within { All (λ h. IfSome h (IsHoldOf (length names.now))) holds.old.items
        → All (λ h. IfSome h (IsHoldOf (length names.now))) holds.new.items }
    ensures line { (before : List HoldWords) → HasHolds holds.old.items before
        → option_to_list result ≡ hold_lines (texts names.now) before entry.now }
{
    if entry.key.as_bytes() != b"hold".as_slice() {
        return None;
    }
    if add_hold(hold_of(names, entry.value.as_bytes()), holds) {
        None
    } else {
        Some(entry.line)
    }
}

/// Keeps a hold where its state has none; false where there is no hold to keep, or its state has
/// one.
fn add_hold(read: Option<(u8, Hold)>, holds: &mut Vec<Option<Hold>>) -> bool
    requires { IfSome read (λ h. h.0 < length holds.old.items) }
    ensures count { length holds.new.items ≡ length holds.old.items }
    ensures holds { (before : List HoldWords) → HasHolds holds.old.items before
        → HasHolds holds.new.items (before ++ option_to_list (option_map hold_read read)) }
    ensures within { (states : ℕ) → All (λ h. IfSome h (IsHoldOf states)) holds.old.items
        → IfSome read (λ h. IsHoldOf states h.1)
        → All (λ h. IfSome h (IsHoldOf states)) holds.new.items }
    ensures is_new { (before : List HoldWords) → HasHolds holds.old.items before
        → result ≡ is_new_hold before (option_map hold_read read) }
{
    let Some((state, hold)) = read else {
        return false;
    };
    if holds[state as usize].is_some() {
        return false;
    }
    holds[state as usize] = Some(hold);
    true
}

/// The state that a hold is of, and the hold.
fn hold_of(names: &[&[u8]], text: &[u8]) -> Option<(u8, Hold)>
    requires { length names.now ≤ 64 }
    ensures value { option_map hold_read result ≡ hold_of_words (texts names.now) (words text.now) }
    ensures state { IfSome result (λ h. h.0 < length names.now) }
    ensures hold { IfSome result (λ h. IsHoldOf (length names.now) h.1) }
{
    let (state, time, shown, next) = four_words(text)?;
    let state = number_in(names, state)?;
    let time = Time::parse(time)?;
    let shown = shown_of(shown)?;
    let next = number_in(names, next)?;
    Some((state, Hold { time, shown, next }))
}
