// The store of a group of one cell, call by call: each call is run once with ample memory, at
// values worked out by hand.
ghost use Rattle.std.specs.Prelude.{◌≡◌, ◌<◌, ◌≤◌, IfOk, length};
ghost use Rattle.model_read.specs.Read.{IsReady};

use atomic_face::{PortNo, Stock};
use atomic_kinds::CounterModel;
use cell_engine::{Cell, CellState, CellStore, Given, PortState, Steps};
use model_leaves::Model;
use model_read::{ReadModel, read_model_bytes};
use quantity::{Name, Time, Value};
use room_edge::MemoryRoom;
use route_flat::Routes;
use std::alloc::Global;
use std::marker::Brand;
use std::process::Abort;
use std::sync::ledger::{Blank, Ledger};
use std::test::Fail;

/// A cell that nothing wakes, and that takes what comes to its port `v`. Its group stands last, so
/// that lines may follow.
const ONE_CELL: &str = "[top]
components : g
in : p
link : p in@g
[r]
rule : 0 100 { t }
[g]
type : cell
dim : (1,1)
delay : transport
defaultDelayTime : 100
border : nowrapped
initialvalue : 0
in : in
link : in v@g(0,0)
localtransition : r
";

/// What its only port gave and computed last, and the values that wait there, each with its time.
#[derive(Clone, Copy)]
struct Wanted<'a> {
    emitted: u8,
    computed: u8,
    pairs: &'a [(u32, u8)],
}

fn time(ms: u32) -> Result<Time, Fail>
    ensures { IfOk result (λ t. t ≡ ms) }
{
    Ok(Time::new(ms).ok_or("no time")?)
}

fn digit(text: u8) -> Result<Value, Fail> {
    Ok(Value::parse(&[text]).ok_or("no value")?)
}

fn waiting(alloc: Global, wanted: &[(u32, u8)]) -> Result<Vec<(Time, Value)>, Fail> {
    let mut pairs = Vec::new(alloc);
    for (ms, value) in wanted {
        pairs.push((time(*ms)?, digit(*value)?))?;
    }
    Ok(pairs)
}

/// The store of the first group, where it has this many variables and no further ports.
fn store_of(
    alloc: Global,
    stock: &Stock<CounterModel>,
    model: &Model,
    routes: &Routes,
    variables: usize,
) -> Result<CellStore, Fail>
    requires ready { IsReady stock.now model.now routes.now }
    ensures ports { IfOk result (λ s. s.layout.ports ≡ 0) }
    ensures variables { IfOk result (λ s. s.layout.variables ≡ variables) }
{
    if model.groups() == 0 {
        return Err(Fail::new("no group"));
    }
    let group = model.group(0);
    if group.port_values.len() != 0 || group.variable_values.len() != variables {
        return Err(Fail::new("another group"));
    }
    Ok(CellStore::new(alloc, group)?)
}

/// The text of the model of one cell, whose group has these further lines.
fn text_of(alloc: Global, lines: &str) -> Result<Vec<u8>, Fail>
    ensures { IfOk result (λ text. length text.items ≤ 1000) }
{
    let mut text = Vec::new(alloc);
    text.extend_from_slice(ONE_CELL.as_bytes())?;
    text.extend_from_slice(lines.as_bytes())?;
    if text.len() > 1000 {
        return Err(Fail::new("a long text"));
    }
    Ok(text)
}

/// The store of the one cell, whose group has these further lines.
fn one_cell(alloc: Global, lines: &str, variables: usize) -> Result<CellStore, Fail>
    ensures ports { IfOk result (λ s. s.layout.ports ≡ 0) }
    ensures variables { IfOk result (λ s. s.layout.variables ≡ variables) }
{
    let text = text_of(alloc, lines)?;
    let boxes: Vec<CounterModel> = Vec::new(alloc);
    let mut stock = Stock::new(alloc, boxes)?;
    let mut room = MemoryRoom::new(alloc, 4096);
    let read = read_model_bytes(alloc, &mut room, &text, &mut stock, None);
    let Ok(
        ReadModel {
            model,
            routes,
            drawn: _,
        },
    ) = read
    else {
        return Err(Fail::new("refused"));
    };
    store_of(alloc, &stock, &model, &routes, variables)
}

/// What a cell of one port tells, which is due then.
fn told(wanted: &Wanted<'_>, next: Option<Time>) -> Result<Cell, Fail> {
    let emitted = digit(wanted.emitted)?;
    let computed = digit(wanted.computed)?;
    Ok(Cell {
        emitted: [
            emitted,
            Value::Undefined,
            Value::Undefined,
            Value::Undefined,
        ],
        computed: [
            computed,
            Value::Undefined,
            Value::Undefined,
            Value::Undefined,
        ],
        next,
    })
}

/// What the store tells of its cell.
fn tells<L: Ledger>(rt: &impl Abort, store: &CellStore, steps: &mut Steps<L>, told: &Cell) {
    assert_eq!(rt; store.cells(), 1);
    let cell = store.cell(0, steps);
    let computed = store.computed(0, steps);
    assert_eq!(rt;
        (cell, computed.value, computed.next),
        (*told, told.computed[0], told.next)
    );
}

/// What the state of a cell of one port and no variables holds.
fn holds(rt: &impl Abort, state: &CellState, told: &Cell, pairs: &[(Time, Value)]) {
    assert_eq!(rt; (state.ports.len(), state.variables.len()), (1, 0));
    for port in &state.ports {
        assert_eq!(rt;
            (port.emitted, port.computed, port.pairs.as_slice()),
            (told.emitted[0], told.computed[0], pairs)
        );
    }
}

/// What the store tells of its cell, and the state that it gives.
fn tells_and_holds<L: Ledger>(
    rt: &(impl Abort + AllocGlobal),
    store: &CellStore,
    steps: &mut Steps<L>,
    told: &Cell,
    pairs: &[(Time, Value)],
) -> Result<(), Fail> {
    tells(rt, store, steps, told);
    assert_eq!(rt; store.cells(), 1);
    let state = store.state(rt.alloc(), 0, steps)?;
    holds(rt, &state, told, pairs);
    Ok(())
}

/// Compares the store with what its cell gave, computed and waits for.
fn stands<L: Ledger>(
    rt: &(impl Abort + AllocGlobal),
    store: &CellStore,
    steps: &mut Steps<L>,
    wanted: &Wanted<'_>,
) -> Result<(), Fail> {
    let pairs = waiting(rt.alloc(), wanted.pairs)?;
    let told = told(wanted, pairs.first().map(|pair| pair.0))?;
    tells_and_holds(rt, store, steps, &told, &pairs)
}

/// A value comes to the cell.
fn takes<L: Ledger>(
    rt: &(impl Abort + AllocGlobal),
    store: &mut CellStore,
    steps: &mut Steps<L>,
) -> Result<(), Fail> {
    let at = time(10)?;
    let bag = [(PortNo(0), digit(b'1')?)];
    let ports = [Name::parse(rt.alloc(), b"v")?];
    assert_eq!(rt; store.cells(), 1);
    store.compute(0, at, false, &bag, &ports, steps)?;
    Ok(())
}

/// The cell gives what is due.
fn gives<L: Ledger>(
    rt: &impl Abort,
    store: &mut CellStore,
    steps: &mut Steps<L>,
) -> Result<(), Fail> {
    let values = [Some(digit(b'0')?), None, None, None];
    assert_eq!(rt; store.cells(), 1);
    let Some(due) = store.computed(0, steps).next else {
        return Err(Fail::new("not due"));
    };
    assert_eq!(rt; store.emit(0, due, steps), Given { values });
    Ok(())
}

/// The cell is given another state.
fn is_put(rt: &(impl Abort + AllocGlobal), store: &mut CellStore) -> Result<(), Fail>
    requires ports { store.old.layout.ports ≡ 0 }
    requires variables { store.old.layout.variables ≡ 0 }
{
    let port = PortState {
        emitted: digit(b'2')?,
        computed: digit(b'3')?,
        pairs: vec![in rt.alloc(); (time(5)?, digit(b'4')?)]?,
    };
    let state = CellState {
        ports: vec![in rt.alloc(); port]?,
        variables: Vec::new(rt.alloc()),
    };
    assert_eq!(rt; store.cells(), 1);
    store.put(0, &state)?;
    Ok(())
}

/// A cell that takes and gives.
fn takes_and_gives<L: Ledger>(
    rt: &(impl Abort + AllocGlobal),
    store: &mut CellStore,
    steps: &mut Steps<L>,
) -> Result<(), Fail> {
    let mut wanted = Wanted {
        emitted: b'?',
        computed: b'0',
        pairs: &[(0, b'0')],
    };
    stands(rt, store, steps, &wanted)?;
    takes(rt, store, steps)?;
    wanted.computed = b'1';
    wanted.pairs = &[(0, b'0'), (110, b'1')];
    stands(rt, store, steps, &wanted)?;
    gives(rt, store, steps)?;
    wanted.emitted = b'0';
    wanted.pairs = &[(110, b'1')];
    stands(rt, store, steps, &wanted)
}

/// A cell that is given a state.
fn has_state<L: Ledger>(
    rt: &(impl Abort + AllocGlobal),
    store: &mut CellStore,
    steps: &mut Steps<L>,
) -> Result<(), Fail>
    requires ports { store.old.layout.ports ≡ 0 }
    requires variables { store.old.layout.variables ≡ 0 }
{
    is_put(rt, store)?;
    let wanted = Wanted {
        emitted: b'2',
        computed: b'3',
        pairs: &[(5, b'4')],
    };
    stands(rt, store, steps, &wanted)
}

/// A cell that has a variable.
fn has_variable<L: Ledger>(
    rt: &impl Abort,
    store: &CellStore,
    steps: &mut Steps<L>,
) -> Result<(), Fail>
    requires { 0 < store.now.layout.variables }
{
    let seven = digit(b'7')?;
    assert_eq!(rt; store.cells(), 1);
    assert_eq!(rt; store.variable(0, 0, steps), seven);
    Ok(())
}

/// What is done with a store: the further lines of its group, how many variables these give it, and
/// whether its cell is given a state.
#[derive(Clone, Copy)]
struct Story<'a> {
    lines: &'a str,
    variables: usize,
    is_put: bool,
}

/// A cell that takes and gives, one that is given a state, and one that has a variable.
const STORIES: [Story<'static>; 3] = [
    Story {
        lines: "",
        variables: 0,
        is_put: false,
    },
    Story {
        lines: "",
        variables: 0,
        is_put: true,
    },
    Story {
        lines: "statevariables : n\nstatevalues : 7\n",
        variables: 1,
        is_put: false,
    },
];

/// A story of a store that is lent.
fn goes<L: Ledger>(
    rt: &(impl Abort + AllocGlobal),
    store: &mut CellStore,
    steps: &mut Steps<L>,
    story: &Story<'_>,
) -> Result<(), Fail>
    requires ports { store.old.layout.ports ≡ 0 }
    requires variables { store.old.layout.variables ≡ story.now.variables }
{
    if story.variables != 0 {
        return has_variable(rt, store, steps);
    }
    if story.is_put {
        return has_state(rt, store, steps);
    }
    takes_and_gives(rt, store, steps)
}

/// A story of a store of its own. To let go of a store is dear to prove: it is done here alone.
fn is_told<L: Ledger>(
    rt: &(impl Abort + AllocGlobal),
    steps: &mut Steps<L>,
    story: &Story<'_>,
) -> Result<(), Fail> {
    let mut store = one_cell(rt.alloc(), story.lines, story.variables)?;
    goes(rt, &mut store, steps, story)
}

/// All stories, with one counter of visits.
fn answers<L: Ledger>(rt: &(impl Abort + AllocGlobal), blank: Blank) -> Result<(), Fail>
    requires name { blank.name ≡ L.name }
    requires parts { blank.parts ≡ L.parts }
    requires some { 0 < L.parts }
{
    let mut steps: Steps<L> = Steps::new(blank);
    for story in &STORIES {
        is_told(rt, &mut steps, story)?;
    }
    Ok(())
}

#[test]
fn each_call_answers(rt: HostRuntime) -> Result<(), Fail> {
    let blank = Blank::new(1);
    answers::<Brand>(&rt, blank)
}
