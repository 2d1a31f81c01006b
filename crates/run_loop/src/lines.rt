// The lines that are shown and complained of a run.
ghost use Rattle.std.specs.Prelude.{◌≡◌, ◌++◌, decimal, IfOk, OnOk};
ghost use Rattle.quantity.specs.ValueTexts.{text5};
ghost use Rattle.model_leaves.specs.Leaves.{OfTree};
ghost use Rattle.text_forms.specs.Lines.{line_with_end};
ghost use Rattle.answer_model.specs.RunEnd.{many_line, stopped_at};
ghost use Rattle.run_loop.specs.Ends.{end_text, made_text, mark_behind, leaf_called, bad_delay_text};

use crate::counted::Counted;
use model_leaves::Model;
use quantity::{OutOfMemory, Time, Value};
use std::alloc::Global;

/// The line of a run that is done, without its line feed.
pub(crate) fn end_line(alloc: Global, end: Time, cycles: u64) -> Result<Vec<u8>, OutOfMemory>
    ensures { IfOk result (λ line. line.items ≡ end_text end cycles) }
{
    let mut line = b"end ".to_vec(alloc)?;
    end.text(&mut line)?;
    put_number(alloc, b" cycles ", cycles, &mut line)?;
    Ok(line)
}

/// The line of a run of a made model that is done, without its line feed.
pub(crate) fn made_line(
    alloc: Global,
    size: u32,
    cells: u32,
    cycles: u64,
    counted: &Counted,
) -> Result<Vec<u8>, OutOfMemory>
    ensures { IfOk result (λ line. line.items ≡ made_text size cells cycles counted.now) }
{
    let mut line: Vec<u8> = Vec::new(alloc);
    put_number(alloc, b"made ", u64::from(size), &mut line)?;
    put_number(alloc, b" cells ", u64::from(cells), &mut line)?;
    put_number(alloc, b" cycles ", cycles, &mut line)?;
    put_number(alloc, b" y ", counted.y(), &mut line)?;
    put_number(alloc, b" s ", counted.s(), &mut line)?;
    put_number(alloc, b" ones ", counted.ones(), &mut line)?;
    Ok(line)
}

/// Appends the mark of an order of service, where there is one.
pub(crate) fn put_mark(
    alloc: Global,
    mark: Option<u32>,
    into: &mut Vec<u8>,
) -> Result<(), OutOfMemory>
    ensures { OnOk result (into.new.items ≡ into.old.items ++ mark_behind mark) }
{
    match mark {
        None => Ok(()),
        Some(mark) => put_number(alloc, b" mark ", u64::from(mark), into),
    }
}

/// Appends a text and a number behind it.
fn put_number(
    alloc: Global,
    what: &[u8],
    number: u64,
    into: &mut Vec<u8>,
) -> Result<(), OutOfMemory>
    ensures { OnOk result (into.new.items ≡ into.old.items ++ what.now ++ decimal number) }
{
    into.extend_from_slice(what)?;
    into.extend_from_slice(number.to_string(alloc)?.as_bytes())?;
    Ok(())
}

/// The line of a run that has too many cycles at one instant.
pub(crate) fn many_cycles_line(alloc: Global, limit: u32, t: Time) -> Result<Vec<u8>, OutOfMemory>
    ensures { IfOk result (λ line. line.items ≡ line_with_end (many_line limit t)) }
{
    let mut line: Vec<u8> = Vec::new(alloc);
    put_number(
        alloc,
        b"too many cycles: limit ",
        u64::from(limit),
        &mut line,
    )?;
    line.extend_from_slice(b" at ")?;
    t.text(&mut line)?;
    line.extend_from_slice(b"\n")?;
    Ok(line)
}

/// The line of a run that a leaf stops.
pub(crate) fn stopped_line(
    alloc: Global,
    model: &Model,
    what: &[u8],
    leaf: u32,
    t: Time,
) -> Result<Vec<u8>, OutOfMemory>
    ensures { IfOk result (λ line. OfTree model.now
        (λ tree. line.items ≡ line_with_end (stopped_at what.now tree leaf t))) }
{
    let mut line = stopped_text(alloc, model, what, leaf, t)?;
    line.extend_from_slice(b"\n")?;
    Ok(line)
}

/// The line of a run that a leaf stops by a delay that is none.
pub(crate) fn delay_line(
    alloc: Global,
    model: &Model,
    leaf: u32,
    t: Time,
    delay: Value,
) -> Result<Vec<u8>, OutOfMemory>
    ensures { IfOk result (λ line. OfTree model.now (λ tree. line.items
        ≡ line_with_end (bad_delay_text tree leaf t delay))) }
{
    let mut line = stopped_text(alloc, model, b"bad delay", leaf, t)?;
    line.extend_from_slice(b": ")?;
    delay.text5(&mut line)?;
    line.extend_from_slice(b"\n")?;
    Ok(line)
}

/// What stops a run, at which leaf and when.
fn stopped_text(
    alloc: Global,
    model: &Model,
    what: &[u8],
    leaf: u32,
    t: Time,
) -> Result<Vec<u8>, OutOfMemory>
    ensures { IfOk result (λ line. OfTree model.now
        (λ tree. line.items ≡ stopped_at what.now tree leaf t)) }
{
    let mut line = what.to_vec(alloc)?;
    line.extend_from_slice(b": ")?;
    put_leaf(model, leaf, &mut line)?;
    line.extend_from_slice(b" at ")?;
    t.text(&mut line)?;
    Ok(line)
}

/// Appends how a leaf is called, where there is one.
fn put_leaf(model: &Model, leaf: u32, into: &mut Vec<u8>) -> Result<(), OutOfMemory>
    ensures { OnOk result (OfTree model.now (λ tree. into.new.items ≡ into.old.items
        ++ leaf_called tree leaf)) }
{
    if leaf < model.leaves() {
        model.leaf_text(leaf, into)
    } else {
        Ok(())
    }
}
