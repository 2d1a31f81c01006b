// What operators and functions make of answers.
ghost use Rattle.std.specs.Prelude.{◌≡◌, List, Some, [], ◌∷◌};
ghost use Rattle.std.specs.Result.{result_ok};
ghost use Rattle.quantity.specs.declared.value.Value.{Value as AnyValue};
ghost use Rattle.quantity.specs.Arithmetic.{test_of, is_even, is_odd, is_whole};
ghost use Rattle.rule_tree.specs.Meaning.{Sight, number_answered, truth_in, as_answer, one_meaning};
ghost use Rattle.rule_tree.specs.Meaning.{two_meaning, by_truth, is_undefined, call_meaning};
ghost use Rattle.rule_eval.specs.Numbers.{number_of_two};
ghost use Rattle.rule_eval.specs.Seen.{IsView, sight_with};

use crate::outs::decided;
use crate::seen::{cell_position, state_count};
use crate::view::View;
use quantity::{Overflow, Tri, Value};
use rule_tree::{Answer, Binary, Function, Unary};

/// The value that an answer is; `?` for a truth value.
pub(crate) fn number_in(answer: Answer) -> Value
    ensures { result ≡ number_answered answer }
{
    match answer {
        Answer::Num(value) => value,
        Answer::Logic(_) => Value::Undefined,
    }
}

/// The truth value that an answer is; undefined for a value.
pub(crate) fn truth_in(answer: Answer) -> Tri
    ensures { result ≡ truth_in answer }
{
    match answer {
        Answer::Num(_) => Tri::Undef,
        Answer::Logic(truth) => truth,
    }
}

/// What an operator makes of one answer.
pub(crate) fn apply_unary(operator: Unary, a: Answer) -> Answer
    ensures { one_meaning operator a ≡ Some result }
{
    match operator {
        Unary::Plus => Answer::Num(number_in(a)),
        Unary::Minus => Answer::Num(number_in(a).neg()),
        Unary::Not => Answer::Logic(truth_in(a).not()),
    }
}

/// What an operator makes of two answers. Overflow where the result is too large.
#[inline(always)]
pub(crate) fn apply_binary(operator: Binary, a: Answer, b: Answer) -> Result<Answer, Overflow>
    ensures { result_ok result ≡ two_meaning operator a b }
{
    match operator {
        Binary::Imp => Ok(Answer::Logic(truth_in(a).imp(truth_in(b)))),
        Binary::Eqv => Ok(Answer::Logic(truth_in(a).eqv(truth_in(b)))),
        Binary::Or => Ok(Answer::Logic(truth_in(a).or(truth_in(b)))),
        Binary::Xor => Ok(Answer::Logic(truth_in(a).xor(truth_in(b)))),
        Binary::And => Ok(Answer::Logic(truth_in(a).and(truth_in(b)))),
        Binary::Cmp(how) => Ok(Answer::Logic(number_in(a).compare(how, number_in(b)))),
        Binary::Add => as_answer(number_in(a).add(number_in(b))),
        Binary::Sub => as_answer(number_in(a).sub(number_in(b))),
        Binary::Mul => as_answer(number_in(a).mul(number_in(b))),
        Binary::Div => as_answer(number_in(a).div(number_in(b))),
    }
}

/// The number that an operator between two numbers answers, `?` where that is a truth value.
#[inline(always)]
pub(crate) fn arithmetic(operator: Binary, a: Value, b: Value) -> Result<Value, Overflow>
    ensures { result_ok result ≡ number_of_two operator a b }
{
    match operator {
        Binary::Add => a.add(b),
        Binary::Sub => a.sub(b),
        Binary::Mul => a.mul(b),
        Binary::Div => a.div(b),
        _ => Ok(Value::Undefined),
    }
}

/// The answer that a value is, where it isn't too large.
pub(crate) fn as_answer(value: Result<Value, Overflow>) -> Result<Answer, Overflow>
    ensures { result_ok result ≡ as_answer (result_ok value) }
{
    match value {
        Ok(value) => Ok(Answer::Num(value)),
        Err(overflow) => Err(overflow),
    }
}

/// What a function makes of its arguments, the first of them first; `?` where there are too few or
/// too many.
pub(crate) fn apply_function(function: Function, arguments: &[Answer], view: &View) -> Answer
    requires { IsView view.now }
    ensures { (variables : List AnyValue)
        → call_meaning function arguments.now (sight_with view.now variables)
        ≡ Some result }
{
    match arguments {
        [a] => of_one(function, *a, view),
        [a, b] => of_two(function, *a, *b),
        [a, b, c] => of_three(function, *a, *b, *c),
        [a, b, c, d] => of_four(function, *a, *b, *c, *d),
        _ => Answer::Num(Value::Undefined),
    }
}

fn of_one(function: Function, a: Answer, view: &View) -> Answer
    requires { IsView view.now }
    ensures { (variables : List AnyValue)
        → call_meaning function (a ∷ []) (sight_with view.now variables) ≡ Some result }
{
    let value = number_in(a);
    match function {
        Function::StateCount => Answer::Num(state_count(value, view)),
        Function::CellPos => Answer::Num(cell_position(value, view)),
        Function::Abs => Answer::Num(value.abs()),
        Function::Sign => Answer::Num(value.sign()),
        Function::Sqrt => Answer::Num(value.sqrt()),
        Function::Trunc => Answer::Num(value.trunc()),
        Function::Round => Answer::Num(value.round()),
        Function::Fractional => Answer::Num(value.fractional()),
        Function::Even => Answer::Logic(is_even(value)),
        Function::Odd => Answer::Logic(is_odd(value)),
        Function::IsInt => Answer::Logic(is_whole(value)),
        Function::IsUndefined => Answer::Logic(is_undefined(value)),
        _ => Answer::Num(Value::Undefined),
    }
}

fn of_two(function: Function, a: Answer, b: Answer) -> Answer
    ensures { (s : Sight) → call_meaning function (a ∷ b ∷ []) s ≡ Some result }
{
    match function {
        Function::Min => Answer::Num(number_in(a).min(number_in(b))),
        Function::Max => Answer::Num(number_in(a).max(number_in(b))),
        Function::Remainder => Answer::Num(number_in(a).rem(number_in(b))),
        _ => Answer::Num(Value::Undefined),
    }
}

fn of_three(function: Function, a: Answer, b: Answer, c: Answer) -> Answer
    ensures { (s : Sight) → call_meaning function (a ∷ b ∷ c ∷ []) s ≡ Some result }
{
    match function {
        Function::If => Answer::Num(by_truth(truth_in(a), &b, &c, &c)),
        _ => Answer::Num(Value::Undefined),
    }
}

fn of_four(function: Function, a: Answer, b: Answer, c: Answer, d: Answer) -> Answer
    ensures { (s : Sight) → call_meaning function (a ∷ b ∷ c ∷ d ∷ []) s ≡ Some result }
{
    match function {
        Function::Ifu => Answer::Num(by_truth(truth_in(a), &b, &c, &d)),
        _ => Answer::Num(Value::Undefined),
    }
}

fn by_truth(truth: Tri, a: &Answer, b: &Answer, u: &Answer) -> Value
    ensures { result ≡ by_truth truth (number_answered a.now) (number_answered b.now)
        (number_answered u.now) }
{
    match truth {
        Tri::True => number_in(*a),
        Tri::False => number_in(*b),
        Tri::Undef => number_in(*u),
    }
}

fn is_even(value: Value) -> Tri
    ensures { result ≡ test_of is_even value }
{
    match value {
        Value::Undefined => Tri::Undef,
        Value::Num(raw) => decided((raw.get() % 200_000).unsigned_abs() == 0),
    }
}

fn is_odd(value: Value) -> Tri
    ensures { result ≡ test_of is_odd value }
{
    match value {
        Value::Undefined => Tri::Undef,
        Value::Num(raw) => decided((raw.get() % 200_000).unsigned_abs() == 100_000),
    }
}

fn is_whole(value: Value) -> Tri
    ensures { result ≡ test_of is_whole value }
{
    match value {
        Value::Undefined => Tri::Undef,
        Value::Num(raw) => decided((raw.get() % 100_000).unsigned_abs() == 0),
    }
}

fn is_undefined(value: Value) -> Tri
    ensures { result ≡ is_undefined value }
{
    match value {
        Value::Undefined => Tri::True,
        Value::Num(_) => Tri::False,
    }
}
