// The numbers that forms answer, with no answers between.
ghost use Rattle.std.specs.Prelude.{◌≡◌, ◌+◌, ◌≤◌, OnOk, vec_len, vec_capacity};
ghost use Rattle.std.specs.Result.{result_ok};
ghost use Rattle.rule_eval.specs.Seen.{IsView, sight_with};
ghost use Rattle.rule_eval.specs.Kept.{AreCounts};
ghost use Rattle.rule_eval.specs.Numbers.{number_meant};
ghost use Rattle.rule_forms.specs.Depth.{depth_of};
ghost use Rattle.rule_forms.specs.Stops.{number_by};
ghost use Rattle.rule_forms.specs.Forms.{expr_of_form};

use crate::answers::answer;
use crate::apply::{arithmetic, number_in};
use crate::counts::Counts;
use crate::seen::neighbour;
use crate::sums::sum;
use crate::view::View;
use quantity::{Overflow, Value};
use rule_forms::{Form, plain_number};
use rule_tree::{Answer, RuleStop};

/// The number that a form answers over the view, with these values of the variables. What stands
/// between operators is a number too, and only other forms are answered as such.
fn number_of(
    form: &Form,
    view: &View,
    variables: &[Value],
    counts: &mut Counts,
    answers: &mut Vec<Answer>,
) -> Result<Value, Overflow>
    requires view { IsView view.now }
    requires counts { AreCounts counts.old view.now }
    requires room { vec_len answers.old + depth_of (expr_of_form form.now)
        ≤ vec_capacity answers.old }
    ensures value { result_ok result ≡ number_meant (expr_of_form form.now)
        (sight_with view.now variables.now) }
    ensures stack { OnOk result (answers.new.items ≡ answers.old.items) }
    ensures capacity { vec_capacity answers.new ≡ vec_capacity answers.old }
    ensures counts { AreCounts counts.new view.now }
{
    match form {
        Form::Neighbour(k, port) => Ok(neighbour(view, *k, *port)),
        Form::Sum(k, port, more) => sum(neighbour(view, *k, *port), more, view),
        Form::Two(operator, a, c) => {
            let a = number_of(a, view, variables, counts, answers)?;
            match plain_number(c) {
                Some(number) => arithmetic(*operator, a, number),
                None => {
                    let c = number_of(c, view, variables, counts, answers)?;
                    arithmetic(*operator, a, c)
                }
            }
        }
        form => number_answered(form, view, variables, counts, answers),
    }
}

/// The same by the form's answer.
#[inline(never)]
fn number_answered(
    form: &Form,
    view: &View,
    variables: &[Value],
    counts: &mut Counts,
    answers: &mut Vec<Answer>,
) -> Result<Value, Overflow>
    requires view { IsView view.now }
    requires counts { AreCounts counts.old view.now }
    requires room { vec_len answers.old + depth_of (expr_of_form form.now)
        ≤ vec_capacity answers.old }
    ensures value { result_ok result ≡ number_meant (expr_of_form form.now)
        (sight_with view.now variables.now) }
    ensures stack { OnOk result (answers.new.items ≡ answers.old.items) }
    ensures capacity { vec_capacity answers.new ≡ vec_capacity answers.old }
    ensures counts { AreCounts counts.new view.now }
{
    match answer(form, view, variables, counts, answers) {
        Ok(found) => Ok(number_in(found)),
        Err(overflow) => Err(overflow),
    }
}

/// The number that a form answers; the stack is emptied first.
pub(crate) fn run_number(
    form: &Form,
    view: &View,
    variables: &[Value],
    counts: &mut Counts,
    answers: &mut Vec<Answer>,
) -> Result<Value, RuleStop>
    requires view { IsView view.now }
    requires counts { AreCounts counts.old view.now }
    requires room { depth_of (expr_of_form form.now) ≤ vec_capacity answers.old }
    ensures value { result ≡ number_by (expr_of_form form.now)
        (sight_with view.now variables.now) }
    ensures capacity { vec_capacity answers.new ≡ vec_capacity answers.old }
    ensures counts { AreCounts counts.new view.now }
{
    answers.clear();
    match number_of(form, view, variables, counts, answers) {
        Ok(value) => Ok(value),
        Err(_) => Err(RuleStop::Overflow),
    }
}
