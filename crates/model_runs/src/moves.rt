// What boxes do from an instant on: each call is run once with ample memory.
ghost use Rattle.std.specs.Prelude.{◌≡◌, ◌<◌, length};

use crate::inputs::{at, inputs, ms_of};
use atomic_face::{AtomicModel, BoxNo, Stock};
use std::alloc::Global;
use std::process::Abort;
use std::test::Fail;

// Inputs at an instant, what a box gives next and when, and its state then.
#[derive(Clone, Copy)]
pub(crate) struct Moves<'a> {
    pub(crate) start: u32,
    pub(crate) bag: &'a [(u16, i8)],
    pub(crate) due: u32,
    pub(crate) values: &'a [(u16, i8)],
    pub(crate) state: &'a [i64],
}

fn advance<M: AtomicModel>(
    stock: &mut Stock<M>,
    no: BoxNo,
    alloc: Global,
    moves: &Moves<'_>,
) -> Result<(), Fail>
    requires { no.0 < length stock.old }
    ensures { length stock.new ≡ length stock.old }
{
    let bag = inputs(alloc, moves.bag)?;
    stock.advance(no, at(moves.start), &bag)?;
    Ok(())
}

// The box gives what it should.
fn gives<M: AtomicModel>(
    rt: &impl Abort,
    alloc: Global,
    stock: &mut Stock<M>,
    no: BoxNo,
    moves: &Moves<'_>,
) -> Result<(), Fail>
    requires { no.0 < length stock.old }
    ensures { length stock.new ≡ length stock.old }
{
    let values = inputs(alloc, moves.values)?;
    let due = ms_of(stock.next(no));
    let mut into = Vec::new(alloc);
    stock.output(no, &mut into)?;
    assert_eq!(rt;
        (due, into.as_slice()),
        (Some(moves.due), values.as_slice())
    );
    Ok(())
}

// The box has the state that it should have, which can be restored.
fn stands<M: AtomicModel>(
    rt: &impl Abort,
    alloc: Global,
    stock: &mut Stock<M>,
    no: BoxNo,
    moves: &Moves<'_>,
) -> Result<(), Fail>
    requires { no.0 < length stock.old }
{
    let mut state = Vec::new(alloc);
    stock.save(no, &mut state)?;
    assert_eq!(rt; state.as_slice(), moves.state);
    stock.restore(alloc, no, &state)?;
    Ok(())
}

// The box moves as it should.
pub(crate) fn goes<M: AtomicModel>(
    rt: &impl Abort,
    alloc: Global,
    stock: &mut Stock<M>,
    no: BoxNo,
    moves: &Moves<'_>,
) -> Result<(), Fail>
    requires { no.0 < length stock.old }
{
    advance(stock, no, alloc, moves)?;
    gives(rt, alloc, stock, no, moves)?;
    stands(rt, alloc, stock, no, moves)
}
