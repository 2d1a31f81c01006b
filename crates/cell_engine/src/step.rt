// What one cell takes by a set of rules.
ghost use Rattle.std.specs.Prelude.{◌≡◌, ℕ, ◌+◌, ◌<◌, ◌≤◌, List, length};
ghost use Rattle.std.specs.Prelude.{[], IfOk, IfSome, OnOk, OnErr, slice_index_or};
ghost use Rattle.std.specs.List.{All};
ghost use Rattle.quantity.specs.declared.bounds.TheConstants.{MAX_DELAY};
ghost use Rattle.quantity.specs.declared.value.Value.{Value as AnyValue};
ghost use Rattle.rule_tree.specs.Chosen.{outcome_of_rules};
ghost use Rattle.rule_tree.specs.Meaning.{outs};
ghost use Rattle.rule_forms.specs.ByPort.{Evaluates};
ghost use Rattle.rule_forms.specs.Depth.{rule_depth};
ghost use Rattle.rule_eval.specs.Evaluated.{Lends, only};
ghost use Rattle.rule_eval.specs.Tallies.{IsTally};
ghost use Rattle.cell_grid.specs.Space.{cell_count};
ghost use Rattle.run_model.specs.CellStep.{took};
ghost use Rattle.cell_table.specs.Table.{HasShape, changed_cell, changed_ports};
ghost use Rattle.cell_table.specs.Told.{cell_at, OnlyCell};
ghost use Rattle.cell_engine.specs.Known.{seen_at};
ghost use Rattle.cell_engine.specs.Step.{AreGiven, at_port, near, sees};
ghost use Rattle.cell_engine.specs.Step.{GoesBy, GoesByOwn, TakesGiven};
ghost use Rattle.cell_engine.specs.Step.{given_found, variables_found};
ghost use Rattle.cell_engine.specs.Store.{IsAtDesk};
ghost use Rattle.cell_engine.specs.Tallied.{outs_of, AreTallies};

use crate::desk::Desk;
use crate::plan::Plan;
use crate::sight::{look, place_of, view};
use crate::tallies::tally_of;
use cell_table::CellTable;
use quantity::{DelayKind, OutOfMemory, Time, Value};
use rule_eval::{Given, Lent, RuleCode, Tally, evaluate_lent};
use rule_tree::RuleStop;
use run_model::LeafStop;

/// A woken cell takes what its own rules give. Its counts may be known.
#[inline(always)]
pub(crate) fn by_own(
    plan: &Plan,
    i: u32,
    t: Time,
    tallies: &[Tally],
    table: &mut CellTable,
    desk: &mut Desk,
) -> Result<(), LeafStop>
    requires ready { IsAtDesk plan.now table.old desk.old }
    requires time { t ≤ MAX_DELAY }
    requires cell { i < length table.old.cells }
    requires tallies { AreTallies (near plan.now) (outs_of table.old) tallies.now }
    ensures cell { GoesByOwn plan.now t i table.old table.new result }
    ensures only { OnlyCell i table.old.cells table.new.cells }
    ensures ready { IsAtDesk plan.now table.new desk.new }
{
    let rules = codes_at(plan, set_at(plan, i));
    match tally_of(tallies, i) {
        Some(tally) => by_rules_counted(plan, rules, i, t, tally, table, desk),
        None => by_rules(plan, rules, i, t, Value::Undefined, table, desk),
    }
}

/// A cell takes what the first true rule gives over what it sees, with a value at the port that the
/// rules are for.
#[inline(never)]
pub(crate) fn by_rules(
    plan: &Plan,
    rules: &[RuleCode],
    i: u32,
    t: Time,
    port: Value,
    table: &mut CellTable,
    desk: &mut Desk,
) -> Result<(), LeafStop>
    requires ready { IsAtDesk plan.now table.old desk.old }
    requires time { t ≤ MAX_DELAY }
    requires cell { i < length table.old.cells }
    requires depth { All (λ rule. rule_depth rule ≤ desk.old.stack.depth) rules.now }
    ensures cell { GoesBy plan.now
        (at_port port (sees plan.now t table.old i)) rules.now i table.old table.new result }
    ensures only { OnlyCell i table.old.cells table.new.cells }
    ensures ready { IsAtDesk plan.now table.new desk.new }
{
    by_rules_knowing(plan, rules, i, t, port, None, table, desk)
}

/// The same without such a value, where it is known how many neighbours show what is counted.
#[inline(never)]
pub(crate) fn by_rules_counted(
    plan: &Plan,
    rules: &[RuleCode],
    i: u32,
    t: Time,
    tally: Tally,
    table: &mut CellTable,
    desk: &mut Desk,
) -> Result<(), LeafStop>
    requires ready { IsAtDesk plan.now table.old desk.old }
    requires time { t ≤ MAX_DELAY }
    requires cell { i < length table.old.cells }
    requires depth { All (λ rule. rule_depth rule ≤ desk.old.stack.depth) rules.now }
    requires tally { IsTally tally (outs (sees plan.now t table.old i)) }
    ensures cell { GoesBy plan.now
        (sees plan.now t table.old i) rules.now i table.old table.new result }
    ensures only { OnlyCell i table.old.cells table.new.cells }
    ensures ready { IsAtDesk plan.now table.new desk.new }
{
    by_rules_knowing(
        plan,
        rules,
        i,
        t,
        Value::Undefined,
        Some(tally),
        table,
        desk,
    )
}

/// The same with both. It stands in each of these two, so that nothing is got ready for counts
/// that none are known of.
#[inline(always)]
fn by_rules_knowing(
    plan: &Plan,
    rules: &[RuleCode],
    i: u32,
    t: Time,
    port: Value,
    known: Option<Tally>,
    table: &mut CellTable,
    desk: &mut Desk,
) -> Result<(), LeafStop>
    requires ready { IsAtDesk plan.now table.old desk.old }
    requires time { t ≤ MAX_DELAY }
    requires cell { i < length table.old.cells }
    requires depth { All (λ rule. rule_depth rule ≤ desk.old.stack.depth) rules.now }
    requires known { IfSome known (λ k. IsTally k (outs (sees plan.now t table.old i))) }
    ensures cell { GoesBy plan.now
        (at_port port (sees plan.now t table.old i)) rules.now i table.old table.new result }
    ensures only { OnlyCell i table.old.cells table.new.cells }
    ensures ready { IsAtDesk plan.now table.new desk.new }
{
    match evaluate_cell(plan, rules, i, t, port, known, table, desk) {
        Ok((lent, delay)) => {
            let at = later(t, delay);
            take_found(
                table,
                i,
                plan.settings.kind,
                at,
                &lent,
                &desk.given,
                &desk.changed,
            )
        }
        Err(stop) => Err(LeafStop::Rule(stop)),
    }
}

/// What the first true rule gives over what a cell sees, and after which delay. Its counts may be
/// known.
#[inline(always)]
pub(crate) fn evaluate_cell<'r>(
    plan: &Plan,
    rules: &'r [RuleCode],
    i: u32,
    t: Time,
    port: Value,
    known: Option<Tally>,
    table: &CellTable,
    desk: &mut Desk,
) -> Result<(Lent<'r>, Time), RuleStop>
    requires ready { IsAtDesk plan.now table.now desk.old }
    requires cell { i < length table.now.cells }
    requires depth { All (λ rule. rule_depth rule ≤ desk.old.stack.depth) rules.now }
    requires known { IfSome known (λ k. IsTally k (outs (sees plan.now t table.now i))) }
    ensures value { let variables = (cell_at table.now.cells i).variables in
        Lends (Evaluates (outcome_of_rules rules.now
        (seen_at (at_port port (sees plan.now t table.now i)) variables)))
        result desk.new.given desk.new.changed.items variables }
    ensures delay { IfOk result (λ made. made.1 ≤ MAX_DELAY) }
    ensures ready { IsAtDesk plan.now table.now desk.new }
{
    let place = place_of(plan, i);
    look(plan, table, i, place, &mut desk.neighbours, &mut desk.seen);
    let view = view(plan, table, i, place, t, port, &desk.seen);
    evaluate_lent(
        rules,
        &view,
        known,
        &mut desk.changed,
        &mut desk.given,
        &mut desk.stack,
    )
}

/// The number of a cell's rule set.
fn set_at(plan: &Plan, i: u32) -> usize
    requires { i < cell_count plan.now.space }
    ensures value { result ≡ slice_index_or plan.now.sets i 0 }
    ensures within { result < length plan.now.rule_sets }
{
    plan.sets.at(i)
}

/// The codes of a rule set.
pub(crate) fn codes_at(plan: &Plan, set: usize) -> &[RuleCode]
    requires { set < length plan.now.rule_sets }
    ensures { result.now ≡ slice_index_or plan.now.rule_sets set [] }
{
    &plan.rule_sets[set]
}

/// The time that is so much later.
pub(crate) fn later(t: Time, delay: Time) -> Time
    requires time { t ≤ MAX_DELAY }
    requires delay { delay ≤ MAX_DELAY }
    ensures { result ≡ t + delay }
{
    t.after(delay)
}

/// A cell takes values after a delay from where they stand: in a rule's text, here, or in the place
/// for them, with the variables after the sets in theirs.
#[inline(always)]
fn take_found(
    table: &mut CellTable,
    i: u32,
    kind: DelayKind,
    at: Time,
    lent: &Lent<'_>,
    given: &Given,
    changed: &[Value],
) -> Result<(), LeafStop>
    requires cell { i < length table.old.cells }
    requires variables { length changed.now ≡ table.old.variables }
    ensures cell { TakesGiven i kind at (given_found lent.now given.now).values
        (variables_found lent.now changed.now (cell_at table.old.cells i).variables)
        table.old.cells table.new.cells result }
    ensures memory { OnErr result (result ≡ Err LeafStop.Memory) }
    ensures only { OnlyCell i table.old.cells table.new.cells }
    ensures shape { HasShape table.old table.new }
{
    match lent {
        Lent::Known(known) => take_lent(table, i, kind, at, &known.given),
        Lent::Alone(value) => take_value(table, i, kind, at, *value),
        Lent::Placed => take_made(table, i, kind, at, given, changed),
    }
}

/// A cell takes values after a delay, and its variables stay.
#[inline(always)]
pub(crate) fn take_lent(
    table: &mut CellTable,
    i: u32,
    kind: DelayKind,
    at: Time,
    given: &Given,
) -> Result<(), LeafStop>
    requires cell { i < length table.old.cells }
    ensures cell { TakesGiven i kind at given.now.values
        (cell_at table.old.cells i).variables table.old.cells table.new.cells result }
    ensures memory { OnErr result (result ≡ Err LeafStop.Memory) }
    ensures only { OnlyCell i table.old.cells table.new.cells }
    ensures shape { HasShape table.old table.new }
{
    let Ok(()) = take(table, i, kind, at, given) else {
        return Err(LeafStop::Memory);
    };
    Ok(())
}

/// A cell takes one value after a delay, at its port `out`, and its variables stay.
#[inline(always)]
fn take_value(
    table: &mut CellTable,
    i: u32,
    kind: DelayKind,
    at: Time,
    value: Value,
) -> Result<(), LeafStop>
    requires cell { i < length table.old.cells }
    ensures cell { TakesGiven i kind at (only value).values
        (cell_at table.old.cells i).variables table.old.cells table.new.cells result }
    ensures memory { OnErr result (result ≡ Err LeafStop.Memory) }
    ensures only { OnlyCell i table.old.cells table.new.cells }
    ensures shape { HasShape table.old table.new }
{
    // For the proof, as in `take`.
    let _width = table.width();
    let Ok(()) = table.take_out(i, kind, at, value) else {
        return Err(LeafStop::Memory);
    };
    Ok(())
}

/// A cell takes values after a delay, and its variables have these values.
#[inline(never)]
fn take_made(
    table: &mut CellTable,
    i: u32,
    kind: DelayKind,
    at: Time,
    given: &Given,
    variables: &[Value],
) -> Result<(), LeafStop>
    requires cell { i < length table.old.cells }
    requires variables { length variables.now ≡ table.old.variables }
    ensures cell { TakesGiven i kind at given.now.values variables.now
        table.old.cells table.new.cells result }
    ensures memory { OnErr result (result ≡ Err LeafStop.Memory) }
    ensures only { OnlyCell i table.old.cells table.new.cells }
    ensures shape { HasShape table.old table.new }
{
    let Ok(()) = take(table, i, kind, at, given) else {
        return Err(LeafStop::Memory);
    };
    table.set_variables(i, variables);
    Ok(())
}

/// A cell takes values after a delay, as if in their written order.
#[inline(always)]
pub(crate) fn take(
    table: &mut CellTable,
    i: u32,
    kind: DelayKind,
    at: Time,
    given: &Given,
) -> Result<(), OutOfMemory>
    requires cell { i < length table.old.cells }
    ensures cell { (gs : List (ℕ × AnyValue)) → AreGiven gs given.now.values
        → OnOk result (table.new ≡ changed_cell i (changed_ports (took kind at gs)) table.old) }
    ensures only { OnlyCell i table.old.cells table.new.cells }
    ensures shape { HasShape table.old table.new }
{
    // For the proof: each cell has `width` ports, at most 4, and at most 8 variables.
    let _width = table.width();
    table.take(i, kind, at, given)
}
