// What a view shows: neighbours, counts and coordinates.
ghost use Rattle.std.specs.Prelude.{◌≡◌, ◌≤◌, ◌^◌, List, [], length, slice_get};
ghost use Rattle.std.specs.Option.{unwrap_or};
ghost use Rattle.quantity.specs.declared.value.Value.{Value as AnyValue};
ghost use Rattle.quantity.specs.Arithmetic.{same_value};
ghost use Rattle.quantity.specs.declared.bounds.TheConstants.{MAX_OFFSETS};
ghost use Rattle.rule_tree.specs.Meaning.{value_at, whole, outs, how_many, neighbour_count, state_count};
ghost use Rattle.rule_tree.specs.Meaning.{coordinates, cell_position};
ghost use Rattle.rule_eval.specs.Seen.{IsView, neighbours_of, sight_with, sight_of_view};

use crate::view::View;
use quantity::{Place, Raw, Value};
use rule_forms::whole_number;
use rule_tree::Count;

/// The value that stands at this place, or `?`.
pub(crate) fn value_at(values: &[Value], k: usize) -> Value
    ensures { result ≡ value_at values.now k }
{
    match values.get(k) {
        Some(value) => *value,
        None => Value::Undefined,
    }
}

/// A whole number as a value.
pub(crate) fn whole(n: u64) -> Value
    requires { n ≤ 10 ^ 10 }
    ensures { result ≡ whole n }
{
    match Raw::new(n as i64 * 100_000) {
        Some(raw) => Value::Num(raw),
        None => unreachable!(),
    }
}

/// What a neighbour gave at a port, or `?` where the view has no such neighbour or port.
pub(crate) fn neighbour(view: &View, offset: u8, port: u8) -> Value
    requires { IsView view.now }
    ensures { result ≡ value_at (unwrap_or (slice_get (neighbours_of view.now) offset) []) port }
{
    if port > view.ports {
        return Value::Undefined;
    }
    let width = usize::from(view.ports) + 1;
    value_at(
        view.neighbours,
        usize::from(offset) * width + usize::from(port),
    )
}

/// How many neighbours gave this value at their port `out`, where `?` equals `?`.
fn how_many(wanted: &Value, view: &View) -> u64
    requires { IsView view.now }
    ensures value { result ≡ how_many wanted.now (outs (sight_of_view view.now)) }
    ensures bounded { result ≤ MAX_OFFSETS }
{
    if view.ports == 0 {
        how_many_in(wanted, view.neighbours)
    } else {
        how_many_first(wanted, view)
    }
}

/// The same where neighbours have no port but `out`.
fn how_many_in(wanted: &Value, values: &[Value]) -> u64
    requires { length values.now ≤ MAX_OFFSETS }
    ensures value { result ≡ how_many wanted.now values.now }
    ensures bounded { result ≤ MAX_OFFSETS }
{
    match wanted {
        Value::Undefined => how_many_undefined(values),
        Value::Num(raw) => how_many_numbers(raw.get(), values),
    }
}

/// How many of these values are `?`.
fn how_many_undefined(values: &[Value]) -> u64
    requires { length values.now ≤ MAX_OFFSETS }
    ensures value { result ≡ how_many AnyValue.Undefined values.now }
    ensures bounded { result ≤ MAX_OFFSETS }
{
    let mut count = 0;
    for value in values {
        if is_undefined(value) {
            count += 1;
        }
    }
    count
}

/// Whether a value is `?`.
#[inline(always)]
pub(crate) fn is_undefined(value: &Value) -> bool
    ensures { result ≡ same_value AnyValue.Undefined value.now }
{
    match value {
        Value::Undefined => true,
        Value::Num(_) => false,
    }
}

/// How many of these values are this number.
fn how_many_numbers(wanted: i64, values: &[Value]) -> u64
    requires { length values.now ≤ MAX_OFFSETS }
    ensures value { result ≡ how_many (AnyValue.Num wanted) values.now }
    ensures bounded { result ≤ MAX_OFFSETS }
{
    let mut count = 0;
    for value in values {
        if is_number(wanted, value) {
            count += 1;
        }
    }
    count
}

/// Whether a value is a number of so many hundred-thousandths.
#[inline(always)]
pub(crate) fn is_number(wanted: i64, value: &Value) -> bool
    ensures { result ≡ same_value (AnyValue.Num wanted) value.now }
{
    match value {
        Value::Undefined => false,
        Value::Num(raw) => wanted == raw.get(),
    }
}

/// The same where they have further ports.
#[inline(never)]
fn how_many_first(wanted: &Value, view: &View) -> u64
    requires { IsView view.now }
    ensures value { result ≡ how_many wanted.now (outs (sight_of_view view.now)) }
    ensures bounded { result ≤ MAX_OFFSETS }
{
    let width = usize::from(view.ports) + 1;
    let offsets = view.neighbours.len() / width;
    let mut count = 0;
    for k in 0..offsets {
        if wanted.is_same(&value_at(view.neighbours, k * width)) {
            count += 1;
        }
    }
    count
}

/// The number of neighbours that a word counts, where they have no port but `out`.
#[inline(always)]
pub(crate) fn counted_outs(count: Count, view: &View) -> u8
    requires view { IsView view.now }
    requires single { view.now.ports ≡ 0 }
    ensures { result ≡ neighbour_count count (outs (sight_of_view view.now)) }
{
    counted_in(count, view.neighbours)
}

#[inline(always)]
fn counted_in(count: Count, values: &[Value]) -> u8
    requires { length values.now ≤ MAX_OFFSETS }
    ensures { result ≡ neighbour_count count values.now }
{
    match count {
        Count::Ones => how_many_numbers(100_000, values) as u8,
        Count::Zeros => how_many_numbers(0, values) as u8,
        Count::Undefs => how_many_undefined(values) as u8,
    }
}

/// The number of neighbours that a word counts, by their ports `out`.
pub(crate) fn counted_first(count: Count, view: &View) -> u8
    requires { IsView view.now }
    ensures { result ≡ neighbour_count count (outs (sight_of_view view.now)) }
{
    how_many_first(&counted_value(count), view) as u8
}

/// The value that a word counts.
fn counted_value(count: Count) -> Value
    ensures { (vs : List Value) → how_many result vs ≡ neighbour_count count vs }
{
    match count {
        Count::Ones => whole(1),
        Count::Zeros => whole(0),
        Count::Undefs => Value::Undefined,
    }
}

/// How many neighbours have this value, or `?` where it is `?`.
pub(crate) fn state_count(value: Value, view: &View) -> Value
    requires { IsView view.now }
    ensures { result ≡ state_count value (outs (sight_of_view view.now)) }
{
    match value {
        Value::Undefined => Value::Undefined,
        Value::Num(_) => whole(how_many(&value, view)),
    }
}

/// The coordinate of this number, or `?` where it is the number of none.
pub(crate) fn cell_position(value: Value, view: &View) -> Value
    ensures { (variables : List Value)
        → result ≡ cell_position value (sight_with view.now variables) }
{
    match whole_number(value) {
        Some(k) if k < u64::from(view.dims) => whole(u64::from(coordinate(&view.place, k))),
        _ => Value::Undefined,
    }
}

fn coordinate(place: &Place, k: u64) -> u32
    ensures { result ≡ unwrap_or (slice_get (coordinates place.now) k) 0 }
{
    match k {
        0 => place.row,
        1 => place.column,
        2 => place.plane,
        _ => 0,
    }
}
