// What a cell sees of its neighbours.
ghost use Rattle.std.specs.Prelude.{◌≡◌, [], ◌++◌, ◌+◌, ◌*◌, ◌<◌, ◌≤◌, length, map, replicate};
ghost use Rattle.std.specs.Prelude.{pos, ◌+ℤ◌, ◌≤ℤ◌, ◌<ℤ◌, vec_capacity, IfSome};
ghost use Rattle.std.specs.List.{All, flat_map};
ghost use Rattle.quantity.specs.declared.bounds.TheConstants.{MAX_CELLS, MAX_OFFSETS};
ghost use Rattle.quantity.specs.declared.value.Value.{Value as AnyValue};
ghost use Rattle.cell_grid.specs.Space.{cell_count, place_of};
ghost use Rattle.cell_reach.specs.Neighbourhoods.{further, neighbours};
ghost use Rattle.cell_table.specs.Table.{IsTable};
ghost use Rattle.cell_table.specs.Told.{cell_at};
ghost use Rattle.cell_engine.specs.Step.{given_by, out_of, out_further};
ghost use Rattle.cell_engine.specs.Step.{AreCells, IsBelow, LooksAt, near};

use crate::plan::Plan;
use cell_table::CellTable;
use quantity::{PackedValue, Place, Time, Value};
use rule_eval::View;

/// The place of a cell, which is worked out once in a step.
#[inline(always)]
pub(crate) fn place_of(plan: &Plan, i: u32) -> Place
    requires { i < cell_count plan.now.space }
    ensures { result ≡ place_of plan.now.space i }
{
    plan.grid.position(i)
}

/// What a cell sees, with a value at the port that its rules are for.
#[inline(always)]
pub(crate) fn view<'a>(
    plan: &Plan,
    table: &'a CellTable,
    i: u32,
    place: Place,
    t: Time,
    port: Value,
    seen: &'a [Value],
) -> View<'a>
    requires place { place ≡ place_of plan.now.space i }
    requires exists { i < length table.now.cells }
    requires width { table.now.width ≡ plan.now.ports + 1 }
    requires seen { seen.now ≡ flat_map (given_by table.now) (neighbours (near plan.now) i) }
    ensures looks { LooksAt result t plan.now table.now i port }
    ensures count { length result.variables.now ≡ table.now.variables }
    ensures table { IsTable table.now }
    ensures few { length plan.now.offsets ≤ MAX_OFFSETS }
{
    let ports = table.width() - 1;
    View {
        time: t,
        place,
        dims: plan.grid.dims(),
        neighbours: seen,
        ports: ports as u8,
        port,
        variables: table.variables_at(i),
    }
}

/// What the neighbours of a cell gave at their ports, offset by offset. It takes no memory.
#[inline(always)]
pub(crate) fn look(
    plan: &Plan,
    table: &CellTable,
    i: u32,
    place: Place,
    around: &mut [Option<u32>],
    seen: &mut Vec<Value>,
)
    requires cell { i < cell_count plan.now.space }
    requires place { place ≡ place_of plan.now.space i }
    requires cells { length table.now.cells ≡ cell_count plan.now.space }
    requires places { length around.old ≡ length plan.now.offsets }
    requires room { length seen.old.items ≡ length plan.now.offsets * table.now.width }
    ensures seen { seen.new.items ≡ flat_map (given_by table.now) (neighbours (near plan.now) i) }
    ensures room { length seen.new.items ≡ length plan.now.offsets * table.now.width }
{
    if table.width() == 1 {
        look_at_outs(plan, table.all_emitted(), i, place, around, seen);
    } else {
        plan.reach.neighbours(i, around);
        seen.clear();
        see_all(table, around, seen);
    }
}

/// What the neighbours of a cell gave at their port out, the only one.
#[inline(always)]
fn look_at_outs(
    plan: &Plan,
    emitted: &[PackedValue],
    i: u32,
    place: Place,
    around: &mut [Option<u32>],
    seen: &mut [Value],
)
    requires cell { i < cell_count plan.now.space }
    requires place { place ≡ place_of plan.now.space i }
    requires cells { length emitted.now ≡ cell_count plan.now.space }
    requires places { length around.old ≡ length plan.now.offsets }
    requires room { length seen.old ≡ length plan.now.offsets }
    ensures { seen.new ≡ map (out_of emitted.now) (neighbours (near plan.now) i) }
{
    // For the proof: there are at most `MAX_CELLS` cells.
    let _most = plan.grid.cells();
    match plan.reach.differences_at(place) {
        Some(differences) => see_further(emitted, i, differences, seen),
        None => {
            plan.reach.neighbours(i, around);
            see_outs(emitted, around, seen);
        }
    }
}

/// What the cells so much further gave at their port out.
#[inline(always)]
fn see_further(emitted: &[PackedValue], cell: u32, differences: &[i32], seen: &mut [Value])
    requires near { cell < MAX_CELLS }
    requires cells { length emitted.now ≤ MAX_CELLS }
    requires inside { All (IsBelow (length emitted.now) cell) differences.now }
    requires length { length seen.old ≡ length differences.now }
    ensures { seen.new ≡ map (out_further emitted.now cell) differences.now }
{
    for (place, difference) in differences.iter().enumerate() {
        seen[place] = emitted[further(cell, *difference)].get();
    }
}

/// The number so much further.
#[inline(always)]
pub(crate) fn further(cell: u32, difference: i32) -> usize
    requires near { cell < MAX_CELLS }
    requires low { pos 0 ≤ℤ (pos cell +ℤ difference) }
    requires high { (pos cell +ℤ difference) <ℤ pos 1048577 }
    ensures { result ≡ further cell difference }
{
    // As `u32` first: then no sign is carried into the wider number.
    (cell as i32 + difference) as u32 as usize
}

/// What each neighbour gave at its port out, the only one.
#[inline(never)]
fn see_outs(emitted: &[PackedValue], neighbours: &[Option<u32>], seen: &mut [Value])
    requires cells { AreCells (length emitted.now) neighbours.now }
    requires length { length seen.old ≡ length neighbours.now }
    ensures { seen.new ≡ map (out_of emitted.now) neighbours.now }
{
    for (place, neighbour) in neighbours.iter().enumerate() {
        seen[place] = out_of(emitted, *neighbour);
    }
}

/// What a neighbour gave at its port out, and `?` for one outside the space.
#[inline(always)]
fn out_of(emitted: &[PackedValue], neighbour: Option<u32>) -> Value
    requires { IfSome neighbour (λ n. n < length emitted.now) }
    ensures { result ≡ out_of emitted.now neighbour }
{
    match neighbour {
        Some(n) => emitted[n as usize].get(),
        None => Value::Undefined,
    }
}

/// What each neighbour gave at each of its ports.
#[inline(never)]
fn see_all(table: &CellTable, neighbours: &[Option<u32>], seen: &mut Vec<Value>)
    requires cells { AreCells (length table.now.cells) neighbours.now }
    requires empty { seen.old.items ≡ [] }
    requires room { length neighbours.now * table.now.width ≤ vec_capacity seen.old }
    ensures seen { seen.new.items ≡ flat_map (given_by table.now) neighbours.now }
    ensures long { length seen.new.items ≡ length neighbours.now * table.now.width }
{
    for neighbour in neighbours {
        see(table, *neighbour, seen);
    }
}

/// Appends what a neighbour gave at each port, and `?` for one outside the space.
fn see(table: &CellTable, neighbour: Option<u32>, seen: &mut Vec<Value>)
    requires cell { IfSome neighbour (λ n. n < length table.now.cells) }
    requires room { length seen.old.items + table.now.width ≤ vec_capacity seen.old }
    ensures seen { seen.new.items ≡ seen.old.items ++ given_by table.now neighbour }
    ensures long { length seen.new.items ≡ length seen.old.items + table.now.width }
    ensures capacity { vec_capacity seen.new ≡ vec_capacity seen.old }
{
    match neighbour {
        Some(n) => append(seen, table.emitted_at(n)),
        None => append_undefined(seen, table.width()),
    }
}

fn append(seen: &mut Vec<Value>, values: &[PackedValue])
    requires { length seen.old.items + length values.now ≤ vec_capacity seen.old }
    ensures seen { seen.new.items ≡ seen.old.items ++ values.now }
    ensures long { length seen.new.items ≡ length seen.old.items + length values.now }
    ensures capacity { vec_capacity seen.new ≡ vec_capacity seen.old }
{
    for value in values {
        seen.push_reserved(value.get());
    }
}

fn append_undefined(seen: &mut Vec<Value>, n: usize)
    requires { length seen.old.items + n ≤ vec_capacity seen.old }
    ensures seen { seen.new.items ≡ seen.old.items ++ replicate n AnyValue.Undefined }
    ensures long { length seen.new.items ≡ length seen.old.items + n }
    ensures capacity { vec_capacity seen.new ≡ vec_capacity seen.old }
{
    for _port in 0..n {
        seen.push_reserved(Value::Undefined);
    }
}
