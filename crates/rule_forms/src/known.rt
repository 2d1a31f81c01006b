// What is known of a rule before it is evaluated.
ghost use Rattle.std.specs.Prelude.{◌≡◌, ◌≤◌, ◌==◌, [], ◌∷◌, IfOk, IfSome, is_some, List, Ok, map};
ghost use Rattle.quantity.specs.declared.bounds.TheConstants.{MAX_DELAY};
ghost use Rattle.rule_tree.specs.Meaning.{Sight};
ghost use Rattle.rule_forms.specs.Forms.{expr_of_form};
ghost use Rattle.rule_forms.specs.Numbered.{numbered_expression, rule_of_forms};
ghost use Rattle.rule_forms.specs.Stops.{delay_in};
ghost use Rattle.rule_forms.specs.Puts.{no_values, put_by, AlwaysPuts};
ghost use Rattle.rule_forms.specs.Known.{AlwaysWaits, are_numbers, delay_alone, is_constant};
ghost use Rattle.rule_forms.specs.Known.{StandsAlone, is_alone_in, is_out_alone};
ghost use Rattle.rule_forms.specs.declared.forms.Form.{Form as AnyForm};

use crate::forms::{Form, plain_number};
use crate::given::Given;
use crate::numbered::NumberedForm;
use crate::whole_numbers::whole_number;
use quantity::{MAX_DELAY, Time, Value};
use rule_tree::RuleStop;

/// What a rule gives, and after which delay, where both are the same whatever a cell sees.
#[derive(Clone, Copy)]
pub struct Constant {
    pub given: Given,
    pub delay: Time,
}

/// All that a rule in these forms gives, where it is the same whatever a cell sees and nothing is
/// set.
pub(crate) fn constant_of(
    gives: &[NumberedForm],
    delay: &Form,
    sets: &[NumberedForm],
) -> Option<Constant>
    ensures always { IfSome result
        (AlwaysPuts (map numbered_expression gives.now) (expr_of_form delay.now)
        (map numbered_expression sets.now)) }
    ensures each { (condition : AnyForm) → is_some result
        ≡ is_constant (rule_of_forms gives.now delay.now condition sets.now) }
{
    if !sets.is_empty() {
        return None;
    }
    let delay = constant_delay(delay)?;
    let given = constant_values(gives)?;
    Some(Constant { given, delay })
}

/// The delay of a rule, where it is the same whatever a cell sees.
pub(crate) fn constant_delay(form: &Form) -> Option<Time>
    ensures always { IfSome result (AlwaysWaits (expr_of_form form.now)) }
    ensures each { result ≡ delay_alone (expr_of_form form.now) }
{
    let value = plain_number(form)?;
    match delay_in(&value) {
        Ok(delay) => Some(delay),
        Err(_) => None,
    }
}

/// The values that a rule gives, where they are numbers.
fn constant_values(gives: &[NumberedForm]) -> Option<Given>
    ensures always { IfSome result (λ given. (s : Sight)
        → put_by (map numbered_expression gives.now) s no_values ≡ Ok given.values) }
    ensures each { is_some result ≡ are_numbers (map numbered_expression gives.now) }
{
    let mut given = Given { values: [None; 4] };
    for give in gives {
        let value = plain_number(&give.form)?;
        given.put(give.number, value);
    }
    Some(given)
}

/// The form of the value that is given alone, at the port `out`, where nothing is set.
#[inline(always)]
pub(crate) fn value_alone<'g>(gives: &'g [NumberedForm], sets: &[NumberedForm]) -> Option<&'g Form>
    ensures always { IfSome result (λ f. StandsAlone (expr_of_form f.now)
        (map numbered_expression gives.now) (map numbered_expression sets.now)) }
    ensures each { is_some result
        ≡ is_alone_in (map numbered_expression gives.now) (map numbered_expression sets.now) }
{
    if sets.is_empty() {
        form_alone(gives)
    } else {
        None
    }
}

/// The form of the value that is given alone, at the port `out`.
#[inline(always)]
fn form_alone(gives: &[NumberedForm]) -> Option<&Form>
    ensures always { IfSome result
        (λ f. map numbered_expression gives.now ≡ (0, expr_of_form f.now) ∷ []) }
    ensures each { is_some result ≡ is_out_alone (map numbered_expression gives.now) }
{
    match gives {
        [give] => form_at_out(give),
        _ => None,
    }
}

/// The form that is for the port `out`.
#[inline(always)]
fn form_at_out(give: &NumberedForm) -> Option<&Form>
    ensures always { IfSome result (λ f. numbered_expression give.now ≡ (0, expr_of_form f.now)) }
    ensures each { is_some result ≡ (give.now.number == 0) }
{
    if give.number == 0 {
        Some(&give.form)
    } else {
        None
    }
}

/// A delay, if it is a whole number of milliseconds that is not too large.
#[tactic(auto, using(crate::proofs::WholeNumbers::delay_is))]
pub fn delay_in(value: &Value) -> Result<Time, RuleStop>
    ensures value { result ≡ delay_in value.now }
    ensures bounded { IfOk result (λ ms. ms ≤ MAX_DELAY) }
{
    match whole_number(*value) {
        Some(ms) if ms <= u64::from(MAX_DELAY) => Ok(time(ms)),
        _ => Err(RuleStop::BadDelay(*value)),
    }
}

fn time(ms: u64) -> Time
    requires { ms ≤ MAX_DELAY }
    ensures { result ≡ ms }
{
    match Time::new(ms as u32) {
        Some(time) => time,
        None => unreachable!(),
    }
}
