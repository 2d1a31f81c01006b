// Tests of numbers that are compared as they are.
ghost use Rattle.std.specs.Prelude.{◌≡◌};
ghost use Rattle.quantity.specs.Arithmetic.{comparison, raw_comparison};
ghost use Rattle.quantity.specs.Truth.{tri_of};
ghost use Rattle.quantity.specs.declared.value.Value.{Value as AnyValue};
ghost use Rattle.quantity.specs.declared.value.Compare.{Compare as AnyCompare};
ghost use Rattle.rule_eval.specs.Seen.{IsView, neighbours_of};
ghost use Rattle.rule_eval.specs.Sums.{port_value_at};

use crate::seen::value_at;
use crate::view::View;
use quantity::{Raw, Tri, Value};

/// Whether a neighbour gave this number at its port `out`; undefined where it gave `?`.
#[inline(always)]
pub(crate) fn out_is(view: &View, offset: u8, number: &Raw) -> Tri
    requires { IsView view.now }
    ensures { result ≡ comparison AnyCompare.Equal
        (port_value_at (neighbours_of view.now) offset 0) (AnyValue.Num number.now) }
{
    match out_value(view, offset) {
        Value::Undefined => Tri::Undef,
        Value::Num(raw) => decided(equal(raw.get(), number.get())),
    }
}

/// What a neighbour gave at its port `out`.
#[inline(always)]
fn out_value(view: &View, offset: u8) -> Value
    requires { IsView view.now }
    ensures { result ≡ port_value_at (neighbours_of view.now) offset 0 }
{
    let width = usize::from(view.ports) + 1;
    value_at(view.neighbours, usize::from(offset) * width)
}

#[inline(always)]
fn equal(a: i64, b: i64) -> bool
    ensures { result ≡ raw_comparison AnyCompare.Equal a b }
{
    a == b
}

/// The truth value of a test that is never undefined.
#[inline(always)]
pub(crate) fn decided(holds: bool) -> Tri
    ensures { result ≡ tri_of holds }
{
    if holds { Tri::True } else { Tri::False }
}
