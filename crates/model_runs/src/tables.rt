// A table through a box in a stock: each call is run once with ample memory, at values worked out
// by hand.
ghost use Rattle.std.specs.Prelude.{◌≡◌, ◌<◌, false, length, IfOk, IsTrue};
ghost use Rattle.std.specs.List.{HoldsAt};
ghost use Rattle.quantity.specs.Bytes.{is_among};
ghost use Rattle.atomic_face.specs.Once.{are_once};
ghost use Rattle.atomic_face.specs.Settings.{once_keys};

use crate::moves::{Moves, goes};
use atomic_face::{AtomicModel, BoxNo, Class, Param, Params, Stock};
use quantity::Text;
use state_tables::TableModel;
use std::alloc::{AllocError, Global};
use std::process::Abort;
use std::test::Fail;

#[derive(Clone, Copy)]
enum Line<'a> {
    Hold(&'a str),
    Take(&'a str),
}

impl Line<'_> {
    fn key(&self) -> &'static [u8]
        ensures { is_among (once_keys Class.Table) result.now ≡ false }
    {
        match self {
            Line::Hold(_) => b"hold",
            Line::Take(_) => b"take",
        }
    }

    fn text(&self) -> &[u8] {
        match self {
            Line::Hold(text) => text.as_bytes(),
            Line::Take(text) => text.as_bytes(),
        }
    }
}

pub(crate) fn param(alloc: Global, line: u32, key: &[u8], value: &[u8]) -> Result<Param, Fail>
    ensures { IfOk result (λ p. p.key ≡ key.now) }
{
    let key = Text::copy(alloc, key)?;
    let value = Text::copy(alloc, value)?;
    Ok(Param { line, key, value })
}

// States at line 8, and what follows from line 9 on.
fn params(alloc: Global, states: &str, lines: &[Line<'_>]) -> Result<Params, Fail>
    ensures { IfOk result (λ p. IsTrue (are_once Class.Table p.entries.items)) }
{
    let mut entries = Vec::new(alloc);
    entries.push(param(alloc, 8, b"states", states.as_bytes())?)?;
    let mut number = 9u32;
    for line in lines {
        entries.push(param(alloc, number, line.key(), line.text())?)?;
        number = number.saturating_add(1);
    }
    Ok(Params { entries })
}

// Red for 30 ms, then 1; green for 50 ms, then 2; from green 9 at `a` leads to red.
fn light(alloc: Global) -> Result<Params, Fail>
    ensures { IfOk result (λ p. IsTrue (are_once Class.Table p.entries.items)) }
{
    let lines = [
        Line::Hold("red 00:00:00:030 1 green"),
        Line::Hold("green 00:00:00:050 2 red"),
        Line::Take("green a 9 red"),
    ];
    params(alloc, "red green", &lines)
}

fn stocked<M: AtomicModel>(alloc: Global, model: M) -> Result<Stock<M>, Fail> {
    let mut boxes = Vec::new(alloc);
    boxes.push(model).map_err(AllocError::from)?;
    Ok(Stock::new(alloc, boxes)?)
}

fn taken<M: AtomicModel>(stock: &mut Stock<M>) -> Result<BoxNo, Fail>
    ensures within { IfOk result (λ at. at.0 < length stock.new) }
    ensures table { IfOk result (λ at. HoldsAt (λ s. s.box.kind ≡ Class.Table) stock.new at.0) }
{
    Ok(stock.take(Class::Table)?)
}

// A table that is taken and settled.
fn settled<M: AtomicModel>(
    stock: &mut Stock<M>,
    alloc: Global,
    params: &Params,
) -> Result<BoxNo, Fail>
    requires { IsTrue (are_once Class.Table params.now.entries.items) }
    ensures { IfOk result (λ at. at.0 < length stock.new) }
{
    let no = taken(stock)?;
    stock.settle(alloc, no, params)?;
    Ok(no)
}

// At 30 ms the light turns green, and 9 turns it red again.
const CHANGE: Moves<'static> = Moves {
    start: 30,
    bag: &[(0, 9)],
    due: 60,
    values: &[(0, 1)],
    state: &[0, 60, 900_000],
};

// A light that changes.
fn changes<M: AtomicModel>(
    rt: &impl Abort,
    alloc: Global,
    stock: &mut Stock<M>,
) -> Result<(), Fail> {
    let params = light(alloc)?;
    let no = settled(stock, alloc, &params)?;
    goes(rt, alloc, stock, no, &CHANGE)
}

// A table that is put into a stock.
fn change<M: AtomicModel>(rt: &impl Abort, alloc: Global, model: M) -> Result<(), Fail> {
    let mut stock = stocked(alloc, model)?;
    changes(rt, alloc, &mut stock)
}

#[test]
fn lights_change(rt: HostRuntime) -> Result<(), Fail> {
    let model: Box<dyn AtomicModel> = Box::new(rt.alloc(), TableModel::new(rt.alloc())?)?;
    change(&rt, rt.alloc(), model)
}
