// The run of the ring, call by call: a model that is read, a run that is made of it, and what three
// calls of `cycle` answer and record.
ghost use Rattle.std.specs.Prelude.{◌≡◌, ◌<◌, ◌≤◌, IfOk, IsTrue, not};
ghost use Rattle.std.specs.List.{list_all};
ghost use Rattle.quantity.specs.declared.bounds.TheConstants.{MAX_DELAY};
ghost use Rattle.model_read.specs.Read.{IsReady};

use atomic_face::{PortNo, Stock};
use atomic_kinds::CounterModel;
use cell_engine::Steps;
use event_list::Events;
use flat_run::FlatRun;
use model_leaves::Model;
use model_read::{ReadModel, read_model_bytes};
use quantity::{MaybeTime, MaybeValueBytes, OutOfMemory, Time, Value, ValueBytes};
use room_edge::MemoryRoom;
use route_flat::Routes;
use run_leaves::Progress;
use std::alloc::Global;
use std::marker::Brand;
use std::process::Abort;
use std::sync::ledger::{Blank, Ledger};
use std::test::Fail;
use text_forms::{Records, SRecord, YRecord};
use time_queue::LinkedQueue;

type Run = FlatRun<LinkedQueue, CounterModel>;

/// Three cells in a ring; a cell is 1 where one of the three that it sees is.
const RING: &str = "[top]
components : line
[line]
type : cell
dim : (1,3)
delay : transport
defaultDelayTime : 100
border : wrapped
neighbors : line(0,-1) line(0,0) line(0,1)
initialvalue : 0
initialrowvalue : 0 010
localtransition : r
[r]
rule : 1 100 { truecount = 1 }
rule : 0 100 { t }
";

/// What a call of `cycle` answers: the instant of a cycle, if there is one, and what it records.
#[derive(Clone, Copy)]
struct Wanted<'a> {
    at: Option<u32>,
    /// Values at the ports `out`, by leaf.
    given: &'a [(u32, u8)],
    /// Leaves that moved: what each computed, and its next time.
    moved: &'a [(u32, u8, Option<u32>)],
}

fn time(ms: u32) -> Result<Time, Fail>
    ensures { IfOk result (λ t. t ≡ ms) }
{
    Ok(Time::new(ms).ok_or("no time")?)
}

fn digit(text: u8) -> Result<Value, Fail> {
    Ok(Value::parse(&[text]).ok_or("no value")?)
}

/// The run of a model without events up to a time.
fn begun(
    alloc: Global,
    stock: Stock<CounterModel>,
    model: Model,
    routes: Routes,
    end: Time,
) -> Result<Run, OutOfMemory>
    requires ready { IsReady stock model routes }
    requires end { end ≤ MAX_DELAY }
{
    let Ok(queue) = LinkedQueue::with_leaves(alloc, model.leaves()) else {
        drop((stock, model, routes));
        return Err(OutOfMemory);
    };
    let none = Events::none(alloc);
    FlatRun::new(alloc, model, routes, stock, none, queue, end, 10)
}

/// Reads the ring.
fn read_ring(alloc: Global, stock: &mut Stock<CounterModel>) -> Result<ReadModel, Fail>
    requires free { IsTrue (list_all (λ s. not s.taken) stock.old) }
    ensures ready { IfOk result (λ read. IsReady stock.new read.model read.routes) }
{
    let text = RING.as_bytes();
    if text.len() > 1000 {
        return Err(Fail::new("a long text"));
    }
    let mut room = MemoryRoom::new(alloc, 4096);
    let read = read_model_bytes(alloc, &mut room, text, stock, None);
    drop(room);
    match read {
        Ok(read) => Ok(read),
        Err(_) => Err(Fail::new("refused")),
    }
}

/// The run of the ring.
fn ring_run(alloc: Global) -> Result<Run, Fail> {
    let end = time(100)?;
    let boxes: Vec<CounterModel> = Vec::new(alloc);
    let mut stock = Stock::new(alloc, boxes)?;
    match read_ring(alloc, &mut stock) {
        Ok(
            ReadModel {
                model,
                routes,
                drawn: _,
            },
        ) => Ok(begun(alloc, stock, model, routes, end)?),
        Err(fail) => {
            drop(stock);
            Err(fail)
        }
    }
}

/// What leaves gave at an instant.
fn given(alloc: Global, at: Time, leaves: &[(u32, u8)]) -> Result<Vec<YRecord>, Fail> {
    let mut records = Vec::new(alloc);
    for (leaf, value) in leaves {
        records.push(YRecord {
            time: at,
            leaf: *leaf,
            port: PortNo(0),
            value: ValueBytes::of(digit(*value)?),
        })?;
    }
    Ok(records)
}

/// The leaves that moved at an instant.
fn moved(alloc: Global, at: Time, leaves: &[(u32, u8, Option<u32>)]) -> Result<Vec<SRecord>, Fail> {
    let mut records = Vec::new(alloc);
    for (leaf, value, next) in leaves {
        let next = match next {
            Some(ms) => Some(time(*ms)?),
            None => None,
        };
        records.push(SRecord {
            time: at,
            leaf: *leaf,
            value: MaybeValueBytes::of(Some(digit(*value)?)),
            next: MaybeTime::of(next),
        })?;
    }
    Ok(records)
}

/// What a call of `cycle` answers.
fn answer(wanted: &Wanted<'_>, at: Time) -> Progress {
    match wanted.at {
        Some(_) => Progress::Cycled(at),
        None => Progress::Done,
    }
}

/// Compares the recorded values at the ports `out`.
fn has_given(
    rt: &(impl Abort + AllocGlobal),
    records: &[YRecord],
    at: Time,
    leaves: &[(u32, u8)],
) -> Result<(), Fail> {
    let given = given(rt.alloc(), at, leaves)?;
    assert_eq!(rt; records, given.as_slice());
    Ok(())
}

/// Compares the recorded leaves that moved.
fn has_moved(
    rt: &(impl Abort + AllocGlobal),
    records: &[SRecord],
    at: Time,
    leaves: &[(u32, u8, Option<u32>)],
) -> Result<(), Fail> {
    let moved = moved(rt.alloc(), at, leaves)?;
    assert!(rt; records == moved.as_slice());
    Ok(())
}

/// One call of `cycle`: what it answers, and the records that it leaves.
fn goes<L: Ledger>(
    rt: &(impl Abort + AllocGlobal),
    run: &mut Run,
    records: &mut Records,
    steps: &mut Steps<L>,
    wanted: &Wanted<'_>,
) -> Result<(), Fail> {
    let at = time(wanted.at.unwrap_or(0))?;
    let went = run.cycle(records, steps);
    assert_eq!(rt; went, Ok(answer(wanted, at)));
    has_given(rt, &records.y, at, wanted.given)?;
    has_moved(rt, &records.s, at, wanted.moved)
}

/// The calls, of which the third finds the run done.
const CALLS: [Wanted<'static>; 3] = [
    Wanted {
        at: Some(0),
        given: &[(0, b'0'), (1, b'1'), (2, b'0')],
        moved: &[(0, b'1', Some(100)), (1, b'1', None), (2, b'1', Some(100))],
    },
    Wanted {
        at: Some(100),
        given: &[(0, b'1'), (2, b'1')],
        moved: &[
            (0, b'0', Some(200)),
            (1, b'0', Some(200)),
            (2, b'0', Some(200)),
        ],
    },
    Wanted {
        at: None,
        given: &[],
        moved: &[],
    },
];

/// Makes the calls.
fn three_calls<L: Ledger>(
    rt: &(impl Abort + AllocGlobal),
    run: &mut Run,
    blank: Blank,
) -> Result<(), Fail>
    requires name { blank.name ≡ L.name }
    requires parts { blank.parts ≡ L.parts }
    requires some { 0 < L.parts }
{
    let mut steps: Steps<L> = Steps::new(blank);
    let mut records = Records::none(rt.alloc());
    for wanted in &CALLS {
        goes(rt, run, &mut records, &mut steps, wanted)?;
    }
    Ok(())
}

#[test]
fn a_run_goes_call_by_call(rt: HostRuntime) -> Result<(), Fail> {
    let mut run = ring_run(rt.alloc())?;
    let blank = Blank::new(1);
    let went = three_calls::<Brand>(&rt, &mut run, blank);
    // A call, as the end of a scope lays out each part of a run.
    drop(run);
    went
}
