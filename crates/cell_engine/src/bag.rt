// The move of a cell: its rules where it is woken, and what it takes of its bag.
ghost use Rattle.std.specs.Prelude.{◌≡◌, ◌<◌, ◌≤◌, Option, None, length, IfSome};
ghost use Rattle.std.specs.List.{All, find};
ghost use Rattle.std.specs.Option.{option_map};
ghost use Rattle.quantity.specs.declared.bounds.TheConstants.{MAX_DELAY};
ghost use Rattle.quantity.specs.declared.value.Value.{Value as AnyValue};
ghost use Rattle.rule_tree.specs.Meaning.{Sight};
ghost use Rattle.atomic_face.specs.declared.class.PortNo.{PortNo as Port};
ghost use Rattle.model_tree.specs.declared.group.PortRule.{PortRule as Ruling};
ghost use Rattle.model_tree.specs.Tree.{Group};
ghost use Rattle.run_model.specs.CellStep.{by_port_rules, port_rules, step_by_value, all_treated, cell_moved};
ghost use Rattle.cell_table.specs.Table.{HasShape};
ghost use Rattle.cell_table.specs.Told.{cell_at, OnlyCell};
ghost use Rattle.cell_engine.specs.Cells.{Computes};
ghost use Rattle.cell_engine.specs.Layout.{StandsFor};
ghost use Rattle.cell_engine.specs.Known.{IsMemo};
ghost use Rattle.cell_engine.specs.Step.{is_for, near, woken_at};
ghost use Rattle.cell_engine.specs.Step.{GoesByOwn, StepsBy, StepsAtPorts};
ghost use Rattle.cell_engine.specs.Store.{IsAtDesk};
ghost use Rattle.cell_engine.specs.Tallied.{outs_of, AreTallies};

use crate::desk::Desk;
use crate::memo::{Memo, by_few};
use crate::plan::Plan;
use crate::step::{by_own, by_rules, codes_at, take};
use crate::tallies::tally_of;
use atomic_face::PortNo;
use cell_table::CellTable;
use model_tree::PortRule;
use quantity::{Name, Time, Value};
use rule_eval::{Given, Tally};
use run_model::LeafStop;

/// A cell that moves at an instant, woken or not.
#[derive(Clone, Copy)]
pub(crate) struct Turn {
    pub cell: u32,
    pub time: Time,
    pub woken: bool,
}

/// A cell after its emission moves: where it is woken its rules are evaluated, and then each value
/// of its bag is treated. Only where rules are evaluated the neighbours are looked at.
#[inline(always)]
pub(crate) fn move_cell(
    plan: &Plan,
    turn: Turn,
    bag: &[(PortNo, Value)],
    ports: &[Name],
    tallies: &[Tally],
    memo: &mut Memo,
    table: &mut CellTable,
    desk: &mut Desk,
) -> Result<(), LeafStop>
    requires ready { IsAtDesk plan.now table.old desk.old }
    requires time { turn.time ≤ MAX_DELAY }
    requires cell { turn.cell < length table.old.cells }
    requires ports { All (λ (o : Port × AnyValue). o.0.0 < length ports.now) bag.now }
    requires tallies { AreTallies (near plan.now) (outs_of table.old) tallies.now }
    requires memo { IsMemo plan.now memo.old.own memo.old.known.items }
    ensures cell { StepsAtPorts plan.now ports.now turn.time turn.cell table.old table.new
        (λ g s. cell_moved g turn.cell turn.time turn.woken s bag.now) result }
    ensures only { OnlyCell turn.cell table.old.cells table.new.cells }
    ensures ready { IsAtDesk plan.now table.new desk.new }
    ensures memo { IsMemo plan.now memo.new.own memo.new.known.items }
{
    match take_if_woken(
        plan, turn.cell, turn.time, turn.woken, tallies, memo, table, desk,
    ) {
        Ok(()) => treat_all(plan, turn.cell, turn.time, bag, ports, table, desk),
        Err(why) => Err(why),
    }
}

/// A cell takes what its rules give, where it is woken.
#[inline(always)]
pub(crate) fn take_if_woken(
    plan: &Plan,
    i: u32,
    t: Time,
    woken: bool,
    tallies: &[Tally],
    memo: &mut Memo,
    table: &mut CellTable,
    desk: &mut Desk,
) -> Result<(), LeafStop>
    requires ready { IsAtDesk plan.now table.old desk.old }
    requires time { t ≤ MAX_DELAY }
    requires cell { i < length table.old.cells }
    requires tallies { AreTallies (near plan.now) (outs_of table.old) tallies.now }
    requires memo { IsMemo plan.now memo.old.own memo.old.known.items }
    ensures cell { StepsBy plan.now t i table.old table.new (λ g s. woken_at g t woken s i) result }
    ensures only { OnlyCell i table.old.cells table.new.cells }
    ensures ready { IsAtDesk plan.now table.new desk.new }
    ensures memo { IsMemo plan.now memo.new.own memo.new.known.items }
{
    if woken {
        by_set(plan, i, t, tallies, memo, table, desk)
    } else {
        Ok(())
    }
}

/// A woken cell goes by what is kept, where answers are and its counts are known, else by its rules.
#[inline(always)]
fn by_set(
    plan: &Plan,
    i: u32,
    t: Time,
    tallies: &[Tally],
    memo: &mut Memo,
    table: &mut CellTable,
    desk: &mut Desk,
) -> Result<(), LeafStop>
    requires ready { IsAtDesk plan.now table.old desk.old }
    requires time { t ≤ MAX_DELAY }
    requires cell { i < length table.old.cells }
    requires tallies { AreTallies (near plan.now) (outs_of table.old) tallies.now }
    requires memo { IsMemo plan.now memo.old.own memo.old.known.items }
    ensures cell { GoesByOwn plan.now t i table.old table.new result }
    ensures only { OnlyCell i table.old.cells table.new.cells }
    ensures ready { IsAtDesk plan.now table.new desk.new }
    ensures memo { IsMemo plan.now memo.new.own memo.new.known.items }
{
    let count = memo.known.len();
    if count == 0 {
        return by_own(plan, i, t, tallies, table, desk);
    }
    match tally_of(tallies, i) {
        Some(tally) => by_few(plan, i, t, tally, tallies, memo, table, desk),
        None => by_own(plan, i, t, tallies, table, desk),
    }
}

/// Each value of a bag is treated, one after another.
fn treat_all(
    plan: &Plan,
    i: u32,
    t: Time,
    bag: &[(PortNo, Value)],
    ports: &[Name],
    table: &mut CellTable,
    desk: &mut Desk,
) -> Result<(), LeafStop>
    requires ready { IsAtDesk plan.now table.old desk.old }
    requires time { t ≤ MAX_DELAY }
    requires cell { i < length table.old.cells }
    requires ports { All (λ (o : Port × AnyValue). o.0.0 < length ports.now) bag.now }
    ensures cell { StepsAtPorts plan.now ports.now t i table.old table.new
        (λ g s. all_treated g i t s bag.now) result }
    ensures only { OnlyCell i table.old.cells table.new.cells }
    ensures ready { IsAtDesk plan.now table.new desk.new }
{
    for input in bag {
        match treat_one(plan, i, t, input, ports, table, desk) {
            Ok(()) => {}
            Err(why) => return Err(why),
        }
    }
    Ok(())
}

/// One value of a bag is treated.
fn treat_one(
    plan: &Plan,
    i: u32,
    t: Time,
    input: &(PortNo, Value),
    ports: &[Name],
    table: &mut CellTable,
    desk: &mut Desk,
) -> Result<(), LeafStop>
    requires ready { IsAtDesk plan.now table.old desk.old }
    requires time { t ≤ MAX_DELAY }
    requires cell { i < length table.old.cells }
    requires port { input.now.0.0 < length ports.now }
    ensures cell { StepsAtPorts plan.now ports.now t i table.old table.new
        (λ g s. step_by_value g i t s input.now) result }
    ensures only { OnlyCell i table.old.cells table.new.cells }
    ensures ready { IsAtDesk plan.now table.new desk.new }
{
    let port = input.0;
    let name = &ports[usize::from(port.0)];
    treat(plan, i, t, name, input.1, table, desk)
}

/// A value at a port of a cell: the rules for that port with the value there, or the value itself
/// after the default delay.
fn treat(
    plan: &Plan,
    i: u32,
    t: Time,
    port: &Name,
    value: Value,
    table: &mut CellTable,
    desk: &mut Desk,
) -> Result<(), LeafStop>
    requires ready { IsAtDesk plan.now table.old desk.old }
    requires time { t ≤ MAX_DELAY }
    requires cell { i < length table.old.cells }
    ensures cell { StepsBy plan.now t i table.old table.new
        (λ g s. by_port_rules g t s value (port_rules g i port.now)) result }
    ensures only { OnlyCell i table.old.cells table.new.cells }
    ensures ready { IsAtDesk plan.now table.new desk.new }
{
    match rules_for(plan, i, port) {
        Some(set) => {
            let rules = codes_at(plan, set);
            by_rules(plan, rules, i, t, value, table, desk)
        }
        None => take_itself(plan, i, t, value, table),
    }
}

/// A cell takes a value after the default delay.
fn take_itself(
    plan: &Plan,
    i: u32,
    t: Time,
    value: Value,
    table: &mut CellTable,
) -> Result<(), LeafStop>
    requires time { t ≤ MAX_DELAY }
    requires cell { i < length table.old.cells }
    ensures cell { (g : Group) → StandsFor g plan.now → (sight : Sight)
        → Computes i table.old.cells table.new.cells
        (by_port_rules g t sight value None (cell_at table.old.cells i)) result }
    ensures only { OnlyCell i table.old.cells table.new.cells }
    ensures shape { HasShape table.old table.new }
{
    let given = Given {
        values: [Some(value), None, None, None],
    };
    let at = t.after(plan.settings.default_delay);
    let Ok(()) = take(table, i, plan.settings.kind, at, &given) else {
        return Err(LeafStop::Memory);
    };
    Ok(())
}

/// The number of the rule set for a port of a cell, where there is one.
fn rules_for(plan: &Plan, cell: u32, port: &Name) -> Option<usize>
    ensures value { result ≡ option_map (λ (r : Ruling). r.rules)
        (find (is_for cell port.now) plan.now.port_rules) }
    ensures within { IfSome result (λ k. k < length plan.now.rule_sets) }
{
    for rule in &plan.port_rules {
        if is_for(rule, cell, port) {
            return Some(rule.rules);
        }
    }
    None
}

/// Whether a rule is one for this port of this cell.
fn is_for(rule: &PortRule, cell: u32, port: &Name) -> bool
    ensures { result ≡ is_for cell port.now rule.now }
{
    let same = rule.port.as_bytes() == port.as_bytes();
    same & (rule.cell == cell)
}
