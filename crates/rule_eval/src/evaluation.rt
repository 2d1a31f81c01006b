// Evaluation of rules, form by form.
ghost use Rattle.std.specs.Prelude.{◌≡◌, ◌≤◌, All, IfOk, IfSome, map, length};
ghost use Rattle.std.specs.Prelude.{vec_capacity, slice_set};
ghost use Rattle.quantity.specs.declared.bounds.TheConstants.{MAX_DELAY};
ghost use Rattle.rule_tree.specs.Chosen.{outcome_of_rules, rule_outcome as given_by, values_of, variables_after};
ghost use Rattle.rule_tree.specs.Meaning.{outs};
ghost use Rattle.rule_eval.specs.Seen.{IsView, sight_with, sight_of_view};
ghost use Rattle.rule_eval.specs.Kept.{AreCounts};
ghost use Rattle.rule_eval.specs.Tallies.{IsTally};
ghost use Rattle.rule_forms.specs.Depth.{depth_of, deepest, rule_depth};
ghost use Rattle.rule_forms.specs.Forms.{expr_of_form};
ghost use Rattle.rule_forms.specs.Known.{StandsAlone};
ghost use Rattle.rule_forms.specs.Numbered.{numbered_expression};
ghost use Rattle.rule_forms.specs.Stops.{number_by, truth_by, delay_by};
ghost use Rattle.rule_forms.specs.ByPort.{Evaluates};
ghost use Rattle.rule_eval.specs.Evaluated.{GivesValues, SetsVariables};
ghost use Rattle.rule_eval.specs.Evaluated.{Lends, MayLend, given_unless_stop, with_given};

use crate::answers::{run, truth};
use crate::apply::truth_in;
use crate::counts::Counts;
use crate::lent::Lent;
use crate::numbers::run_number;
use crate::stack::Stack;
use crate::tally::Tally;
use crate::view::View;
use quantity::{Time, Tri, Value};
use rule_forms::{Constant, Form, Given, NumberedForm, RuleCode, delay_in, plain_number};
use rule_tree::{Answer, RuleStop};

/// What the first true rule gives over a view, by port, and its delay; `changed` then holds the
/// variables after its sets. Without a true rule, where an evaluated part is too large, and where
/// the delay is no whole number of milliseconds from 0 to `MAX_DELAY`, the stop; nothing is
/// promised then of `changed`. It takes no memory and gives none back: the stack stays as it is
/// seen.
pub fn evaluate(
    rules: &[RuleCode],
    view: &View,
    changed: &mut [Value],
    stack: &mut Stack,
) -> Result<(Given, Time), RuleStop>
    requires view { IsView view.now }
    requires variables { length changed.old ≡ length view.now.variables.now }
    requires depth { All (λ rule. rule_depth rule ≤ stack.old.depth) rules.now }
    ensures value { Evaluates
        (outcome_of_rules rules.now (sight_of_view view.now)) result changed.new }
    ensures stack { stack.new ≡ stack.old }
    ensures delay { IfOk result (λ made. made.1 ≤ MAX_DELAY) }
{
    let mut given = Given { values: [None; 4] };
    match evaluate_into(rules, view, changed, &mut given, stack) {
        Ok(made) => {
            let delay = made.1;
            match made.0 {
                Some(constant) => {
                    copy(view.variables, changed);
                    Ok((constant.given, delay))
                }
                None => Ok((given, delay)),
            }
        }
        Err(stop) => Err(stop),
    }
}

/// The same, where nothing is copied that stands in a rule: what that gives is lent, and the
/// variables stay. Else what is given is in `given`, and the variables after the sets are in
/// `changed`. Nothing is promised of these two where they aren't the answer.
#[inline(always)]
pub fn evaluate_into<'r>(
    rules: &'r [RuleCode],
    view: &View,
    changed: &mut [Value],
    given: &mut Given,
    stack: &mut Stack,
) -> Result<(Option<&'r Constant>, Time), RuleStop>
    requires view { IsView view.now }
    requires variables { length changed.old ≡ length view.now.variables.now }
    requires depth { All (λ rule. rule_depth rule ≤ stack.old.depth) rules.now }
    ensures value { MayLend (Evaluates (outcome_of_rules rules.now (sight_of_view view.now))) result
        given.new changed.new view.now.variables.now }
    ensures stack { stack.new ≡ stack.old }
    ensures delay { IfOk result (λ made. made.1 ≤ MAX_DELAY) }
{
    evaluate_counted(rules, view, None, changed, given, stack)
}

/// The same, where the numbers of neighbours that words count may be known: then none is counted.
#[inline(always)]
pub fn evaluate_counted<'r>(
    rules: &'r [RuleCode],
    view: &View,
    known: Option<Tally>,
    changed: &mut [Value],
    given: &mut Given,
    stack: &mut Stack,
) -> Result<(Option<&'r Constant>, Time), RuleStop>
    requires view { IsView view.now }
    requires known { IfSome known (λ t. IsTally t (outs (sight_of_view view.now))) }
    requires variables { length changed.old ≡ length view.now.variables.now }
    requires depth { All (λ rule. rule_depth rule ≤ stack.old.depth) rules.now }
    ensures value { MayLend (Evaluates (outcome_of_rules rules.now (sight_of_view view.now))) result
        given.new changed.new view.now.variables.now }
    ensures stack { stack.new ≡ stack.old }
    ensures delay { IfOk result (λ made. made.1 ≤ MAX_DELAY) }
{
    match evaluate_lent(rules, view, known, changed, given, stack) {
        Ok((lent, delay)) => {
            match lent {
                Lent::Known(constant) => Ok((Some(constant), delay)),
                Lent::Alone(value) => {
                    *given = Given {
                        values: [Some(value), None, None, None],
                    };
                    copy(view.variables, changed);
                    Ok((None, delay))
                }
                Lent::Placed => Ok((None, delay)),
            }
        }
        Err(stop) => Err(stop),
    }
}

/// The same, where a value that is given alone, at the port `out`, is told and put nowhere.
#[inline(always)]
pub fn evaluate_lent<'r>(
    rules: &'r [RuleCode],
    view: &View,
    known: Option<Tally>,
    changed: &mut [Value],
    given: &mut Given,
    stack: &mut Stack,
) -> Result<(Lent<'r>, Time), RuleStop>
    requires view { IsView view.now }
    requires known { IfSome known (λ t. IsTally t (outs (sight_of_view view.now))) }
    requires variables { length changed.old ≡ length view.now.variables.now }
    requires depth { All (λ rule. rule_depth rule ≤ stack.old.depth) rules.now }
    ensures value { Lends (Evaluates (outcome_of_rules rules.now (sight_of_view view.now))) result
        given.new changed.new view.now.variables.now }
    ensures stack { stack.new ≡ stack.old }
    ensures delay { IfOk result (λ made. made.1 ≤ MAX_DELAY) }
{
    let mut counts = Counts::known(known, view);
    first_true(rules, view, changed, &mut counts, given, &mut stack.answers)
}

#[inline(always)]
fn first_true<'r>(
    rules: &'r [RuleCode],
    view: &View,
    changed: &mut [Value],
    counts: &mut Counts,
    given: &mut Given,
    answers: &mut Vec<Answer>,
) -> Result<(Lent<'r>, Time), RuleStop>
    requires view { IsView view.now }
    requires counts { AreCounts counts.old view.now }
    requires variables { length changed.old ≡ length view.now.variables.now }
    requires room { All (λ rule. rule_depth rule ≤ vec_capacity answers.old) rules.now }
    ensures value { Lends (Evaluates (outcome_of_rules rules.now (sight_of_view view.now))) result
        given.new changed.new view.now.variables.now }
    ensures capacity { vec_capacity answers.new ≡ vec_capacity answers.old }
    ensures counts { AreCounts counts.new view.now }
    ensures delay { IfOk result (λ made. made.1 ≤ MAX_DELAY) }
{
    for rule in rules {
        match condition(rule, view, counts, answers)? {
            Tri::True => return give(rule, view, changed, counts, given, answers),
            Tri::False | Tri::Undef => {}
        }
    }
    Err(RuleStop::NoTrueRule)
}

#[inline(always)]
fn condition(
    rule: &RuleCode,
    view: &View,
    counts: &mut Counts,
    answers: &mut Vec<Answer>,
) -> Result<Tri, RuleStop>
    requires view { IsView view.now }
    requires counts { AreCounts counts.old view.now }
    requires room { rule_depth rule.now ≤ vec_capacity answers.old }
    ensures value { result ≡ truth_by rule.now.condition (sight_of_view view.now) }
    ensures capacity { vec_capacity answers.new ≡ vec_capacity answers.old }
    ensures counts { AreCounts counts.new view.now }
{
    truth_of(rule.condition(), view, counts, answers)
}

/// The truth value that a form answers.
#[inline(always)]
fn truth_of(
    form: &Form,
    view: &View,
    counts: &mut Counts,
    answers: &mut Vec<Answer>,
) -> Result<Tri, RuleStop>
    requires view { IsView view.now }
    requires counts { AreCounts counts.old view.now }
    requires room { depth_of (expr_of_form form.now) ≤ vec_capacity answers.old }
    ensures value { result ≡ truth_by (expr_of_form form.now) (sight_of_view view.now) }
    ensures capacity { vec_capacity answers.new ≡ vec_capacity answers.old }
    ensures counts { AreCounts counts.new view.now }
{
    if let Form::Test(test) = form {
        return Ok(truth(test, view, counts));
    }
    truth_run(form, view, counts, answers)
}

/// The same of any form.
#[inline(never)]
fn truth_run(
    form: &Form,
    view: &View,
    counts: &mut Counts,
    answers: &mut Vec<Answer>,
) -> Result<Tri, RuleStop>
    requires view { IsView view.now }
    requires counts { AreCounts counts.old view.now }
    requires room { depth_of (expr_of_form form.now) ≤ vec_capacity answers.old }
    ensures value { result ≡ truth_by (expr_of_form form.now) (sight_of_view view.now) }
    ensures capacity { vec_capacity answers.new ≡ vec_capacity answers.old }
    ensures counts { AreCounts counts.new view.now }
{
    match run(form, view, view.variables, counts, answers) {
        Ok(answer) => Ok(truth_in(answer)),
        Err(stop) => Err(stop),
    }
}

/// What a rule gives whose condition is true.
#[inline(always)]
fn give<'r>(
    rule: &'r RuleCode,
    view: &View,
    changed: &mut [Value],
    counts: &mut Counts,
    given: &mut Given,
    answers: &mut Vec<Answer>,
) -> Result<(Lent<'r>, Time), RuleStop>
    requires view { IsView view.now }
    requires counts { AreCounts counts.old view.now }
    requires variables { length changed.old ≡ length view.now.variables.now }
    requires room { rule_depth rule.now ≤ vec_capacity answers.old }
    ensures value { Lends (Evaluates (given_by rule.now (sight_of_view view.now))) result
        given.new changed.new view.now.variables.now }
    ensures capacity { vec_capacity answers.new ≡ vec_capacity answers.old }
    ensures counts { AreCounts counts.new view.now }
    ensures delay { IfOk result (λ made. made.1 ≤ MAX_DELAY) }
{
    match rule.constant() {
        Some(constant) => Ok((Lent::Known(constant), constant.delay)),
        None => give_worked(rule, view, changed, counts, given, answers),
    }
}

/// The same, where something is evaluated.
#[inline(always)]
fn give_worked<'r>(
    rule: &'r RuleCode,
    view: &View,
    changed: &mut [Value],
    counts: &mut Counts,
    given: &mut Given,
    answers: &mut Vec<Answer>,
) -> Result<(Lent<'r>, Time), RuleStop>
    requires view { IsView view.now }
    requires counts { AreCounts counts.old view.now }
    requires variables { length changed.old ≡ length view.now.variables.now }
    requires room { rule_depth rule.now ≤ vec_capacity answers.old }
    ensures value { Lends (Evaluates (given_by rule.now (sight_of_view view.now))) result
        given.new changed.new view.now.variables.now }
    ensures capacity { vec_capacity answers.new ≡ vec_capacity answers.old }
    ensures counts { AreCounts counts.new view.now }
    ensures delay { IfOk result (λ made. made.1 ≤ MAX_DELAY) }
{
    match rule.value_alone() {
        Some(form) => give_alone(rule, form, view, changed, counts, given, answers),
        None => give_placed(rule, view, changed, counts, given, answers),
    }
}

/// The same of a rule that gives the value of this form alone: told at once where its delay is
/// known.
#[inline(always)]
fn give_alone<'r>(
    rule: &'r RuleCode,
    form: &Form,
    view: &View,
    changed: &mut [Value],
    counts: &mut Counts,
    given: &mut Given,
    answers: &mut Vec<Answer>,
) -> Result<(Lent<'r>, Time), RuleStop>
    requires view { IsView view.now }
    requires counts { AreCounts counts.old view.now }
    requires variables { length changed.old ≡ length view.now.variables.now }
    requires room { rule_depth rule.now ≤ vec_capacity answers.old }
    requires alone { StandsAlone (expr_of_form form.now) rule.now.gives rule.now.sets }
    ensures value { Lends (Evaluates (given_by rule.now (sight_of_view view.now))) result
        given.new changed.new view.now.variables.now }
    ensures capacity { vec_capacity answers.new ≡ vec_capacity answers.old }
    ensures counts { AreCounts counts.new view.now }
    ensures delay { IfOk result (λ made. made.1 ≤ MAX_DELAY) }
{
    match rule.constant_delay() {
        Some(delay) => match number(form, view, view.variables, counts, answers) {
            Ok(value) => Ok((Lent::Alone(value), delay)),
            Err(stop) => Err(stop),
        },
        None => give_placed(rule, view, changed, counts, given, answers),
    }
}

/// The same, where all that is given is put in its place.
#[inline(always)]
fn give_placed<'r>(
    rule: &'r RuleCode,
    view: &View,
    changed: &mut [Value],
    counts: &mut Counts,
    given: &mut Given,
    answers: &mut Vec<Answer>,
) -> Result<(Lent<'r>, Time), RuleStop>
    requires view { IsView view.now }
    requires counts { AreCounts counts.old view.now }
    requires variables { length changed.old ≡ length view.now.variables.now }
    requires room { rule_depth rule.now ≤ vec_capacity answers.old }
    ensures value { Lends (Evaluates (given_by rule.now (sight_of_view view.now))) result
        given.new changed.new view.now.variables.now }
    ensures capacity { vec_capacity answers.new ≡ vec_capacity answers.old }
    ensures counts { AreCounts counts.new view.now }
    ensures delay { IfOk result (λ made. made.1 ≤ MAX_DELAY) }
{
    match give_formed(rule, view, changed, counts, given, answers) {
        Ok(delay) => Ok((Lent::Placed, delay)),
        Err(stop) => Err(stop),
    }
}

/// The same, where its forms are evaluated. The answer is its delay.
#[inline(never)]
fn give_formed(
    rule: &RuleCode,
    view: &View,
    changed: &mut [Value],
    counts: &mut Counts,
    given: &mut Given,
    answers: &mut Vec<Answer>,
) -> Result<Time, RuleStop>
    requires view { IsView view.now }
    requires counts { AreCounts counts.old view.now }
    requires variables { length changed.old ≡ length view.now.variables.now }
    requires room { rule_depth rule.now ≤ vec_capacity answers.old }
    ensures value { Evaluates (given_by rule.now (sight_of_view view.now))
        (with_given given.new result) changed.new }
    ensures capacity { vec_capacity answers.new ≡ vec_capacity answers.old }
    ensures counts { AreCounts counts.new view.now }
    ensures delay { IfOk result (λ ms. ms ≤ MAX_DELAY) }
{
    give_values(rule.gives(), view, counts, given, answers)?;
    let delay = delay(rule, view, counts, answers)?;
    copy(view.variables, changed);
    set_variables(rule.sets(), view, changed, counts, answers)?;
    Ok(delay)
}

/// The delay of a rule.
#[inline(always)]
fn delay(
    rule: &RuleCode,
    view: &View,
    counts: &mut Counts,
    answers: &mut Vec<Answer>,
) -> Result<Time, RuleStop>
    requires view { IsView view.now }
    requires counts { AreCounts counts.old view.now }
    requires room { rule_depth rule.now ≤ vec_capacity answers.old }
    ensures value { result ≡ delay_by rule.now.delay (sight_of_view view.now) }
    ensures bounded { IfOk result (λ ms. ms ≤ MAX_DELAY) }
    ensures capacity { vec_capacity answers.new ≡ vec_capacity answers.old }
    ensures counts { AreCounts counts.new view.now }
{
    match rule.constant_delay() {
        Some(delay) => Ok(delay),
        None => delay_of(rule.delay(), view, counts, answers),
    }
}

/// The delay that a form answers.
#[inline(never)]
fn delay_of(
    form: &Form,
    view: &View,
    counts: &mut Counts,
    answers: &mut Vec<Answer>,
) -> Result<Time, RuleStop>
    requires view { IsView view.now }
    requires counts { AreCounts counts.old view.now }
    requires room { depth_of (expr_of_form form.now) ≤ vec_capacity answers.old }
    ensures value { result ≡ delay_by (expr_of_form form.now) (sight_of_view view.now) }
    ensures bounded { IfOk result (λ ms. ms ≤ MAX_DELAY) }
    ensures capacity { vec_capacity answers.new ≡ vec_capacity answers.old }
    ensures counts { AreCounts counts.new view.now }
{
    let value = number(form, view, view.variables, counts, answers)?;
    delay_in(&value)
}

/// The values that a rule gives, each at its port.
fn give_values(
    gives: &[NumberedForm],
    view: &View,
    counts: &mut Counts,
    given: &mut Given,
    answers: &mut Vec<Answer>,
) -> Result<(), RuleStop>
    requires view { IsView view.now }
    requires counts { AreCounts counts.old view.now }
    requires room { deepest (map numbered_expression gives.now) ≤ vec_capacity answers.old }
    ensures value { GivesValues
        (values_of (map numbered_expression gives.now) (sight_of_view view.now))
        (given_unless_stop given.new result) }
    ensures capacity { vec_capacity answers.new ≡ vec_capacity answers.old }
    ensures counts { AreCounts counts.new view.now }
{
    *given = Given { values: [None; 4] };
    for give in gives {
        let value = number(&give.form, view, view.variables, counts, answers)?;
        given.put(give.number, value);
    }
    Ok(())
}

fn set_variables(
    sets: &[NumberedForm],
    view: &View,
    changed: &mut [Value],
    counts: &mut Counts,
    answers: &mut Vec<Answer>,
) -> Result<(), RuleStop>
    requires view { IsView view.now }
    requires counts { AreCounts counts.old view.now }
    requires room { deepest (map numbered_expression sets.now) ≤ vec_capacity answers.old }
    ensures value { SetsVariables (variables_after (map numbered_expression sets.now)
        (sight_with view.now changed.old)) result changed.new }
    ensures capacity { vec_capacity answers.new ≡ vec_capacity answers.old }
    ensures counts { AreCounts counts.new view.now }
{
    for set in sets {
        let value = number(&set.form, view, changed, counts, answers)?;
        put(changed, usize::from(set.number), value);
    }
    Ok(())
}

/// Copies the values of variables, where there are any.
#[inline(always)]
fn copy(variables: &[Value], changed: &mut [Value])
    requires { length changed.old ≡ length variables.now }
    ensures { changed.new ≡ variables.now }
{
    if !variables.is_empty() {
        changed.copy_from_slice(variables);
    }
}

fn put(values: &mut [Value], k: usize, value: Value)
    ensures { values.new ≡ slice_set values.old k value }
{
    if k < values.len() {
        values[k] = value;
    }
}

/// The number that a form answers.
#[inline(always)]
fn number(
    form: &Form,
    view: &View,
    variables: &[Value],
    counts: &mut Counts,
    answers: &mut Vec<Answer>,
) -> Result<Value, RuleStop>
    requires view { IsView view.now }
    requires counts { AreCounts counts.old view.now }
    requires room { depth_of (expr_of_form form.now) ≤ vec_capacity answers.old }
    ensures value { result ≡ number_by (expr_of_form form.now)
        (sight_with view.now variables.now) }
    ensures capacity { vec_capacity answers.new ≡ vec_capacity answers.old }
    ensures counts { AreCounts counts.new view.now }
{
    if let Some(value) = plain_number(form) {
        return Ok(value);
    }
    run_number(form, view, variables, counts, answers)
}
