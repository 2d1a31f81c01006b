// What forms answer over a view.
ghost use Rattle.std.specs.Prelude.{◌≡◌, ◌+◌, ◌<◌, ◌≤◌, Some, None, [], ◌∷◌, ◌++◌, List};
ghost use Rattle.std.specs.Prelude.{MatchResult, OnOk, vec_len, vec_capacity};
ghost use Rattle.std.specs.Result.{result_ok};
ghost use Rattle.quantity.specs.declared.value.Value.{Value as AnyValue};
ghost use Rattle.quantity.specs.Truth.{conjunction};
ghost use Rattle.quantity.specs.Written.{for_some};
ghost use Rattle.rule_tree.specs.Meaning.{outs, whole, neighbour_count};
ghost use Rattle.rule_tree.specs.Meaning.{meaning, meanings, two_meaning};
ghost use Rattle.rule_eval.specs.Seen.{IsView, neighbours_of, sight_with, sight_of_view};
ghost use Rattle.rule_eval.specs.Kept.{AreCounts};
ghost use Rattle.rule_forms.specs.Depth.{depth_of, depth_of_all};
ghost use Rattle.rule_forms.specs.Stops.{or_stop};
ghost use Rattle.rule_forms.specs.Forms.{expr_of_form, exprs_of_forms};
ghost use Rattle.rule_eval.specs.Tests.{plain_truth, test_truth};
ghost use Rattle.rule_eval.specs.Stacked.{stack_with_answers};

use crate::apply::{apply_binary, apply_function, apply_unary, as_answer};
use crate::counts::Counts;
use crate::outs::{decided, out_is};
use crate::seen::{neighbour, value_at, whole};
use crate::sums::sum;
use crate::view::View;
use quantity::{Overflow, Tri, Value};
use rule_forms::{Form, PlainTest, Test, plain_number};
use rule_tree::{Answer, Binary, Count, RuleStop};

/// What a test answers, those of the usual forms without a call.
#[inline(always)]
pub(crate) fn truth(test: &Test, view: &View, counts: &mut Counts) -> Tri
    requires view { IsView view.now }
    requires counts { AreCounts counts.old view.now }
    ensures value { result ≡ test_truth test.now (neighbours_of view.now) }
    ensures counts { AreCounts counts.new view.now }
{
    match test {
        Test::Plain(test) => plain_truth(test, view, counts),
        Test::PlainBoth(a, b) => both_true(a, b, view, counts),
        test => joined_truth(test, view, counts),
    }
}

/// Whether a plain test and another are true.
#[inline(always)]
fn both_true(a: &PlainTest, b: &Test, view: &View, counts: &mut Counts) -> Tri
    requires view { IsView view.now }
    requires counts { AreCounts counts.old view.now }
    ensures value { result ≡ conjunction (plain_truth a.now (neighbours_of view.now))
        (test_truth b.now (neighbours_of view.now)) }
    ensures counts { AreCounts counts.new view.now }
{
    match plain_truth(a, view, counts) {
        Tri::True => second_truth(b, view, counts),
        Tri::False => Tri::False,
        Tri::Undef => Tri::Undef.and(joined_truth(b, view, counts)),
    }
}

/// What a test answers behind a plain one; another plain one at once.
#[inline(always)]
fn second_truth(test: &Test, view: &View, counts: &mut Counts) -> Tri
    requires view { IsView view.now }
    requires counts { AreCounts counts.old view.now }
    ensures value { result ≡ test_truth test.now (neighbours_of view.now) }
    ensures counts { AreCounts counts.new view.now }
{
    match test {
        Test::Plain(test) => plain_truth(test, view, counts),
        test => joined_truth(test, view, counts),
    }
}

/// What a test answers that may be made of others. The right operand of `and` and `or` is left
/// where the left one decides.
fn joined_truth(test: &Test, view: &View, counts: &mut Counts) -> Tri
    requires view { IsView view.now }
    requires counts { AreCounts counts.old view.now }
    ensures value { result ≡ test_truth test.now (neighbours_of view.now) }
    ensures counts { AreCounts counts.new view.now }
{
    match test {
        Test::Plain(test) => plain_truth(test, view, counts),
        Test::Not(a) => joined_truth(a, view, counts).not(),
        Test::Both(a, b) => match joined_truth(a, view, counts) {
            Tri::True => joined_truth(b, view, counts),
            Tri::False => Tri::False,
            Tri::Undef => Tri::Undef.and(joined_truth(b, view, counts)),
        },
        Test::Either(a, b) => match joined_truth(a, view, counts) {
            Tri::True => Tri::True,
            Tri::False => joined_truth(b, view, counts),
            Tri::Undef => Tri::Undef.or(joined_truth(b, view, counts)),
        },
        Test::PlainBoth(a, b) => match plain_truth(a, view, counts) {
            Tri::True => joined_truth(b, view, counts),
            Tri::False => Tri::False,
            Tri::Undef => Tri::Undef.and(joined_truth(b, view, counts)),
        },
        Test::PlainEither(a, b) => match plain_truth(a, view, counts) {
            Tri::True => Tri::True,
            Tri::False => joined_truth(b, view, counts),
            Tri::Undef => Tri::Undef.or(joined_truth(b, view, counts)),
        },
    }
}

/// What a test answers that is made of no others.
#[inline(always)]
fn plain_truth(test: &PlainTest, view: &View, counts: &mut Counts) -> Tri
    requires view { IsView view.now }
    requires counts { AreCounts counts.old view.now }
    ensures value { result ≡ plain_truth test.now (neighbours_of view.now) }
    ensures counts { AreCounts counts.new view.now }
{
    match test {
        PlainTest::Truth(truth) => *truth,
        PlainTest::NeighbourIs(how, k, port, number) => {
            neighbour(view, *k, *port).compare(*how, *number)
        }
        PlainTest::CountIs(how, count, number) => {
            number_counted(*count, view, counts).compare(*how, *number)
        }
        PlainTest::OutIs(k, number) => out_is(view, *k, number),
        PlainTest::CountEquals(count, number) => decided(counts.number(*count, view) == *number),
    }
}

/// The number of neighbours that a word counts, as a value.
#[inline(always)]
fn number_counted(count: Count, view: &View, counts: &mut Counts) -> Value
    requires view { IsView view.now }
    requires counts { AreCounts counts.old view.now }
    ensures value { result ≡ whole (neighbour_count count (outs (sight_of_view view.now))) }
    ensures counts { AreCounts counts.new view.now }
{
    whole(u64::from(counts.number(count, view)))
}

/// What a form answers over the view, with these values of the variables. The arguments of
/// functions stand on the stack meanwhile.
#[cycle(answer)]
pub(crate) fn answer(
    form: &Form,
    view: &View,
    variables: &[Value],
    counts: &mut Counts,
    answers: &mut Vec<Answer>,
) -> Result<Answer, Overflow>
    requires view { IsView view.now }
    requires counts { AreCounts counts.old view.now }
    requires room { vec_len answers.old + depth_of (expr_of_form form.now)
        ≤ vec_capacity answers.old }
    ensures value { result_ok result ≡ meaning (expr_of_form form.now)
        (sight_with view.now variables.now) }
    ensures stack { OnOk result (answers.new.items ≡ answers.old.items) }
    ensures capacity { vec_capacity answers.new ≡ vec_capacity answers.old }
    ensures counts { AreCounts counts.new view.now }
{
    match form {
        Form::Number(value) => Ok(Answer::Num(*value)),
        Form::Neighbour(k, port) => Ok(Answer::Num(neighbour(view, *k, *port))),
        Form::Variable(k) => Ok(Answer::Num(value_at(variables, usize::from(*k)))),
        Form::Now => Ok(Answer::Num(whole(u64::from(view.time.ms())))),
        Form::PortValue => Ok(Answer::Num(view.port)),
        Form::Counted(count) => Ok(Answer::Num(number_counted(*count, view, counts))),
        Form::Test(test) => Ok(Answer::Logic(truth(test, view, counts))),
        Form::Sum(k, port, more) => as_answer(sum(neighbour(view, *k, *port), more, view)),
        Form::One(operator, a) => {
            let a = answer(a, view, variables, counts, answers)?;
            Ok(apply_unary(*operator, a))
        }
        Form::Two(operator, a, c) => {
            let a = answer(a, view, variables, counts, answers)?;
            answer_behind(c, *operator, a, view, variables, counts, answers)
        }
        Form::Call(function, arguments) => {
            let below = answers.len();
            stack_answers(arguments, view, variables, counts, answers)?;
            let made = apply_function(*function, &answers[below..], view);
            answers.truncate(below);
            Ok(made)
        }
    }
}

/// What an operator makes of its left answer and of what its right form answers.
#[cycle(answer)]
#[inline(always)]
fn answer_behind(
    right: &Form,
    operator: Binary,
    left: Answer,
    view: &View,
    variables: &[Value],
    counts: &mut Counts,
    answers: &mut Vec<Answer>,
) -> Result<Answer, Overflow>
    requires view { IsView view.now }
    requires counts { AreCounts counts.old view.now }
    requires room { vec_len answers.old + depth_of (expr_of_form right.now)
        ≤ vec_capacity answers.old }
    ensures value { result_ok result
        ≡ for_some (meaning (expr_of_form right.now) (sight_with view.now variables.now))
        (two_meaning operator left) }
    ensures stack { OnOk result (answers.new.items ≡ answers.old.items) }
    ensures capacity { vec_capacity answers.new ≡ vec_capacity answers.old }
    ensures counts { AreCounts counts.new view.now }
{
    match plain_number(right) {
        Some(number) => apply_binary(operator, left, Answer::Num(number)),
        None => {
            let right = answer(right, view, variables, counts, answers)?;
            apply_binary(operator, left, right)
        }
    }
}

/// Puts what forms answer on the stack, one after another.
#[cycle(answer)]
fn stack_answers(
    forms: &[Form],
    view: &View,
    variables: &[Value],
    counts: &mut Counts,
    answers: &mut Vec<Answer>,
) -> Result<(), Overflow>
    requires view { IsView view.now }
    requires counts { AreCounts counts.old view.now }
    requires room { vec_len answers.old + depth_of_all (exprs_of_forms forms.now)
        ≤ vec_capacity answers.old }
    ensures value { let made = stack_with_answers answers.old.items
        (meanings (exprs_of_forms forms.now) (sight_with view.now variables.now)) in
        MatchResult result (λ _. made ≡ Some answers.new.items) (λ _. made ≡ None) }
    ensures capacity { vec_capacity answers.new ≡ vec_capacity answers.old }
    ensures counts { AreCounts counts.new view.now }
{
    for form in forms {
        let argument = answer(form, view, variables, counts, answers)?;
        push(answers, argument);
    }
    Ok(())
}

fn push(answers: &mut Vec<Answer>, answer: Answer)
    requires { vec_len answers.old < vec_capacity answers.old }
    ensures stack { answers.new.items ≡ answers.old.items ++ answer ∷ [] }
    ensures capacity { vec_capacity answers.new ≡ vec_capacity answers.old }
{
    // For the proof: the value's type is named.
    let _kind: Option<Value> = None;
    answers.push_reserved(answer);
}

/// What a form answers, over the view with these values of the variables; the stack is emptied
/// first.
pub(crate) fn run(
    form: &Form,
    view: &View,
    variables: &[Value],
    counts: &mut Counts,
    answers: &mut Vec<Answer>,
) -> Result<Answer, RuleStop>
    requires view { IsView view.now }
    requires counts { AreCounts counts.old view.now }
    requires room { depth_of (expr_of_form form.now) ≤ vec_capacity answers.old }
    ensures value { result ≡ or_stop (meaning (expr_of_form form.now)
        (sight_with view.now variables.now)) }
    ensures capacity { vec_capacity answers.new ≡ vec_capacity answers.old }
    ensures counts { AreCounts counts.new view.now }
{
    answers.clear();
    match answer(form, view, variables, counts, answers) {
        Ok(found) => Ok(found),
        Err(_) => Err(RuleStop::Overflow),
    }
}
