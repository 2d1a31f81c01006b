// A log line read back.
ghost use Rattle.std.specs.Prelude.{◌≡◌, IfSome};
ghost use Rattle.std.specs.Option.{option_map};
ghost use Rattle.text_forms.specs.LogLine as forms;
ghost use Rattle.text_forms.specs.Frames.{line_time};
ghost use Rattle.drawlog_top.specs.LeafRead.{named_leaf, HasWholePlace};
ghost use Rattle.drawlog_top.specs.LineRead.{leaf_in, line_of};
ghost use Rattle.drawlog_top.specs.PartsRead.{parts_of};
ghost use Rattle.drawlog_top.specs.Strict as strict;

use crate::leaf_name::{LeafName, has_place, read_leaf};
use crate::parts::{Parts, cut_parts};
use crate::usual::read_value;
use crate::usual_line::usual_line;
use crate::usual_time::read_time;
use quantity::name::is_name;
use quantity::{Time, Value};
use text_forms::{Letter, Tells};

/// A line of a log: a value given at the port `out` or at a further port, a value that reached a
/// leaf, or a leaf that moved.
#[derive(Clone, Copy)]
pub enum LogLine<'a> {
    /// A value given at the port `out`.
    Y {
        time: Time,
        leaf: LeafName<'a>,
        port: &'a [u8],
        value: Value,
    },
    /// A value given at a further port.
    N {
        time: Time,
        leaf: LeafName<'a>,
        port: &'a [u8],
        value: Value,
    },
    /// A value that reached a leaf.
    X {
        time: Time,
        leaf: LeafName<'a>,
        port: &'a [u8],
        value: Value,
    },
    /// A leaf that moved: its computed value, where it is a cell, and its next time.
    S {
        time: Time,
        leaf: LeafName<'a>,
        value: Option<Value>,
        next: Option<Time>,
    },
}

impl LogLine<'_> {
    /// The time of the line: that of its cycle.
    pub fn time(&self) -> Time
        ensures { result ≡ line_time (line_of self.now) }
    {
        match self {
            LogLine::Y { time, .. } => *time,
            LogLine::N { time, .. } => *time,
            LogLine::X { time, .. } => *time,
            LogLine::S { time, .. } => *time,
        }
    }
}

/// The line that a text, without its line end, is; None exactly where it is off the form of a log's
/// lines. It takes no memory.
pub fn read_line(text: &[u8]) -> Option<LogLine<'_>>
    ensures line { option_map line_of result ≡ forms.read_line text.now }
    ensures leaf { IfSome result (λ line. HasWholePlace (leaf_in line)) }
{
    match usual_line(text) {
        Some(line) => Some(line),
        None => strict_line(text),
    }
}

/// The same, as it is read part by part.
#[cold]
#[inline(never)]
fn strict_line(text: &[u8]) -> Option<LogLine<'_>>
    ensures line { option_map line_of result ≡ strict.strict_line text.now }
    ensures leaf { IfSome result (λ line. HasWholePlace (leaf_in line)) }
{
    let parts = cut_parts(text)?;
    line_by(&parts)
}

/// The line of these parts, by its letter.
fn line_by<'a>(parts: &Parts<'a>) -> Option<LogLine<'a>>
    ensures line { option_map line_of result
        ≡ strict.line_by parts.now.letter.now (parts_of parts.now) }
    ensures leaf { IfSome result (λ line. HasWholePlace (leaf_in line)) }
{
    match parts.letter {
        [byte] => one_letter(Letter::of_byte(*byte)?, parts),
        _ => None,
    }
}

/// The line of this letter, of its other parts.
fn one_letter<'a>(letter: Letter, parts: &Parts<'a>) -> Option<LogLine<'a>>
    ensures line { option_map line_of result ≡ strict.one_letter letter (parts_of parts.now) }
    ensures leaf { IfSome result (λ line. HasWholePlace (leaf_in line)) }
{
    match letter.tells() {
        Tells::Given { .. } => given_line(letter, parts),
        Tells::Moved => moved_line(parts),
    }
}

fn given_line<'a>(letter: Letter, parts: &Parts<'a>) -> Option<LogLine<'a>>
    ensures line { option_map line_of result ≡ strict.given_line letter (parts_of parts.now) }
    ensures leaf { IfSome result (λ line. HasWholePlace (leaf_in line)) }
{
    let time = read_time(parts.time)?;
    let leaf = read_leaf(parts.leaf)?;
    let value = read_value(parts.second)?;
    if is_name(parts.first) {
        given(letter, time, &leaf, parts.first, value)
    } else {
        None
    }
}

/// The line of this letter of a value at a port; None where no line of this letter is of this leaf.
#[inline(always)]
pub(crate) fn given<'a>(
    letter: Letter,
    time: Time,
    leaf: &LeafName<'a>,
    port: &'a [u8],
    value: Value,
) -> Option<LogLine<'a>>
    requires { HasWholePlace leaf.now }
    ensures line { option_map line_of result
        ≡ strict.given_as letter time (named_leaf leaf.now) port.now value }
    ensures leaf { IfSome result (λ line. HasWholePlace (leaf_in line)) }
{
    let leaf_here = *leaf;
    match letter {
        Letter::Y => Some(LogLine::Y {
            time,
            leaf: leaf_here,
            port,
            value,
        }),
        Letter::X => Some(LogLine::X {
            time,
            leaf: leaf_here,
            port,
            value,
        }),
        Letter::N => {
            if has_place(leaf) {
                Some(LogLine::N {
                    time,
                    leaf: leaf_here,
                    port,
                    value,
                })
            } else {
                None
            }
        }
        Letter::S => None,
    }
}

fn moved_line<'a>(parts: &Parts<'a>) -> Option<LogLine<'a>>
    ensures line { option_map line_of result ≡ strict.moved_line (parts_of parts.now) }
    ensures leaf { IfSome result (λ line. HasWholePlace (leaf_in line)) }
{
    let time = read_time(parts.time)?;
    let leaf = read_leaf(parts.leaf)?;
    let value = read_state(parts.first)?;
    let next = read_next(parts.second)?;
    moved(time, &leaf, value, next)
}

/// The line of a leaf that moved; None unless a cell has a value and a box none.
#[inline(always)]
pub(crate) fn moved<'a>(
    time: Time,
    leaf: &LeafName<'a>,
    value: Option<Value>,
    next: Option<Time>,
) -> Option<LogLine<'a>>
    requires { HasWholePlace leaf.now }
    ensures line { option_map line_of result
        ≡ strict.moved_as time (named_leaf leaf.now) value next }
    ensures leaf { IfSome result (λ line. HasWholePlace (leaf_in line)) }
{
    let leaf_here = *leaf;
    if agrees(leaf, &value) {
        Some(LogLine::S {
            time,
            leaf: leaf_here,
            value,
            next,
        })
    } else {
        None
    }
}

/// Whether the value is as the leaf has it: a cell has one, and an atomic component none.
fn agrees(leaf: &LeafName<'_>, value: &Option<Value>) -> bool
    ensures { result ≡ strict.agrees (named_leaf leaf.now) value.now }
{
    match value {
        None => !has_place(leaf),
        Some(_) => has_place(leaf),
    }
}

/// A value, or `-` for none.
pub(crate) fn read_state(text: &[u8]) -> Option<Option<Value>>
    ensures { result ≡ strict.read_state text.now }
{
    if text == b"-".as_slice() {
        return Some(None);
    }
    let value = read_value(text)?;
    Some(Some(value))
}

/// A time, or `...` for none.
pub(crate) fn read_next(text: &[u8]) -> Option<Option<Time>>
    ensures { result ≡ strict.read_next text.now }
{
    if text == b"...".as_slice() {
        return Some(None);
    }
    let time = read_time(text)?;
    Some(Some(time))
}
