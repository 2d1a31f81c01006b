// Sums of neighbours' values.
ghost use Rattle.std.specs.Prelude.{◌≡◌, ◌+ℤ◌, Some, None, MatchOption};
ghost use Rattle.std.specs.Result.{result_ok};
ghost use Rattle.quantity.specs.declared.value.Value.{Value as AnyValue};
ghost use Rattle.quantity.specs.Arithmetic.{value_in_bounds};
ghost use Rattle.rule_eval.specs.Seen.{IsView, neighbours_of};
ghost use Rattle.rule_eval.specs.Sums.{port_value_at, sum_from};

use crate::seen::{neighbour, value_at};
use crate::view::View;
use quantity::{Overflow, Raw, Value};
use rule_forms::PortAt;

/// A value, to which those of neighbours are added one after another. Overflow where one of these
/// sums is too large.
#[tactic(auto, using(crate::proofs::FormSums::undefined_stays))]
pub(crate) fn sum(first: Value, more: &[PortAt], view: &View) -> Result<Value, Overflow>
    requires { IsView view.now }
    ensures { result_ok result ≡ sum_from first more.now (neighbours_of view.now) }
{
    match first {
        Value::Undefined => Ok(Value::Undefined),
        Value::Num(first) => {
            if view.ports == 0 {
                sum_of_outs(first, more, view)
            } else {
                sum_of_ports(first, more, view)
            }
        }
    }
}

/// The sum from a number on, where neighbours have no port but `out`.
fn sum_of_outs(first: Raw, more: &[PortAt], view: &View) -> Result<Value, Overflow>
    requires view { IsView view.now }
    requires single { view.now.ports ≡ 0 }
    ensures { result_ok result
        ≡ sum_from (AnyValue.Num first) more.now (neighbours_of view.now) }
{
    let mut total = first;
    for at in more {
        match out_at(view, at) {
            Value::Undefined => return Ok(Value::Undefined),
            Value::Num(number) => match plus(total, number) {
                Some(sum) => total = sum,
                None => return Err(Overflow),
            },
        }
    }
    Ok(Value::Num(total))
}

/// The same where they have further ports.
#[inline(never)]
fn sum_of_ports(first: Raw, more: &[PortAt], view: &View) -> Result<Value, Overflow>
    requires { IsView view.now }
    ensures { result_ok result
        ≡ sum_from (AnyValue.Num first) more.now (neighbours_of view.now) }
{
    let mut total = first;
    for at in more {
        match neighbour(view, at.offset, at.port) {
            Value::Undefined => return Ok(Value::Undefined),
            Value::Num(number) => match plus(total, number) {
                Some(sum) => total = sum,
                None => return Err(Overflow),
            },
        }
    }
    Ok(Value::Num(total))
}

/// What a neighbour gave at a port, where neighbours have no port but `out`.
#[inline(always)]
fn out_at(view: &View, at: &PortAt) -> Value
    requires view { IsView view.now }
    requires single { view.now.ports ≡ 0 }
    ensures { result ≡ port_value_at (neighbours_of view.now) at.now.offset at.now.port }
{
    if at.port == 0 {
        value_at(view.neighbours, usize::from(at.offset))
    } else {
        Value::Undefined
    }
}

/// The sum of two numbers, or `None` where it is too large.
#[inline(always)]
fn plus(a: Raw, b: Raw) -> Option<Raw>
    ensures { MatchOption result
        (value_in_bounds (a +ℤ b) ≡ None)
        (λ sum. value_in_bounds (a +ℤ b) ≡ Some (AnyValue.Num sum)) }
{
    Raw::new(a.get() + b.get())
}
