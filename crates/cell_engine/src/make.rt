// What a store keeps of a group, and its cells at the start, made from the group.
ghost use Rattle.std.specs.Prelude.{◌≡◌, ◌<◌, ◌≤◌, [], ◌∷◌, ◌++◌, IfOk, OnOk, IsTrue, map};
ghost use Rattle.std.specs.List.{All, range_with_len};
ghost use Rattle.rule_tree.specs.InCode.{rule_of};
ghost use Rattle.rule_forms.specs.Depth.{rule_depth};
ghost use Rattle.cell_grid.specs.Space.{cell_count};
ghost use Rattle.model_tree.specs.Sound.{is_sound_group};
ghost use Rattle.model_tree.specs.Stands.{group_of};
ghost use Rattle.cell_table.specs.Table.{table_at_start};
ghost use Rattle.cell_engine.specs.Layout.{StandsFor, set_of};

use crate::plan::Plan;
use crate::set_numbers::SetNumbers;
use cell_reach::Reach;
use cell_table::CellTable;
use model_tree::{CellGroup, PortRule};
use quantity::OutOfMemory;
use rule_eval::RuleCode;
use rule_tree::RuleTree;
use std::alloc::{AllocError, Global};

/// What a store keeps of a sound group.
pub(crate) fn plan_of(alloc: Global, group: &CellGroup) -> Result<Plan, OutOfMemory>
    requires { IsTrue (is_sound_group (group_of group.now)) }
    ensures { IfOk result (λ plan. StandsFor (group_of group.now) plan) }
{
    let sets = sets_of_cells(alloc, group)?;
    let port_rules = copies(alloc, &group.port_rules)?;
    let reach = Reach::new(alloc, group.grid, &group.offsets)?;
    let rule_sets = codes_of_sets(alloc, &group.rule_sets)?;
    Ok(Plan {
        grid: group.grid,
        settings: group.settings,
        reach,
        rule_sets,
        sets,
        port_rules,
        ports: group.port_values.len(),
        variables: group.variable_values.len(),
    })
}

/// The cells of a sound group at the start.
pub(crate) fn table_of(alloc: Global, group: &CellGroup) -> Result<CellTable, OutOfMemory>
    requires { IsTrue (is_sound_group (group_of group.now)) }
    ensures { IfOk result (λ t. t ≡ table_at_start group.now.initial group.now.port_values.items
        group.now.variable_values.items) }
{
    // For the proof: there are at most `MAX_CELLS` cells.
    let _most = group.grid.cells();
    let initial = group.initial.values();
    CellTable::new(alloc, initial, &group.port_values, &group.variable_values)
}

/// The most answers that any rule of these sets needs on the stack at once.
pub(crate) fn deepest_of_sets(sets: &[Vec<RuleCode>]) -> usize
    ensures { All (λ rules. All (λ rule. rule_depth rule ≤ result) rules)
        (map (λ rules. rules.items) sets.now) }
{
    let mut most = 0;
    for rules in sets {
        most = most.max(deepest(rules));
    }
    most
}

/// The most answers that any of these rules needs on the stack at once.
fn deepest(rules: &[RuleCode]) -> usize
    ensures { All (λ rule. rule_depth rule ≤ result) rules.now }
{
    let mut most = 0;
    for rule in rules {
        most = most.max(rule.depth());
    }
    most
}

/// The codes of all rule sets.
fn codes_of_sets(alloc: Global, sets: &[Vec<RuleTree>]) -> Result<Vec<Vec<RuleCode>>, OutOfMemory>
    ensures { IfOk result (λ codes. map (λ rules. rules.items) codes.items
        ≡ map (λ rules. map rule_of rules.items) sets.now) }
{
    let mut codes = Vec::new(alloc);
    for rules in sets {
        let made = codes_of_rules(alloc, rules)?;
        add_set(&mut codes, made)?;
    }
    Ok(codes)
}

fn add_set(codes: &mut Vec<Vec<RuleCode>>, set: Vec<RuleCode>) -> Result<(), OutOfMemory>
    ensures { OnOk result (map (λ rules. rules.items) codes.new.items
        ≡ map (λ rules. rules.items) codes.old.items ++ set.items ∷ []) }
{
    codes.push(set).map_err(AllocError::from)?;
    Ok(())
}

/// The codes of the rules of one set.
fn codes_of_rules(alloc: Global, rules: &[RuleTree]) -> Result<Vec<RuleCode>, OutOfMemory>
    ensures { IfOk result (λ codes. codes.items ≡ map rule_of rules.now) }
{
    let mut codes = Vec::new(alloc);
    for rule in rules {
        let code = RuleCode::make(alloc, rule)?;
        add_code(&mut codes, code)?;
    }
    Ok(codes)
}

fn add_code(codes: &mut Vec<RuleCode>, code: RuleCode) -> Result<(), OutOfMemory>
    ensures { OnOk result (codes.new.items ≡ codes.old.items ++ code ∷ []) }
{
    codes.push(code).map_err(AllocError::from)?;
    Ok(())
}

/// For each cell the number of its rule set.
fn sets_of_cells(alloc: Global, group: &CellGroup) -> Result<SetNumbers, OutOfMemory>
    ensures { IfOk result (λ sets. sets
        ≡ map (set_of (group_of group.now)) (range_with_len 0 (cell_count group.now.grid))) }
{
    if group.zone_rules.is_empty() {
        return Ok(SetNumbers::first(alloc, group.grid.cells()));
    }
    let laid = sets_by_zones(alloc, group)?;
    Ok(SetNumbers::of(laid))
}

/// The same as a list, as the zones say.
fn sets_by_zones(alloc: Global, group: &CellGroup) -> Result<Vec<usize>, OutOfMemory>
    ensures { IfOk result (λ sets. sets.items
        ≡ map (set_of (group_of group.now)) (range_with_len 0 (cell_count group.now.grid))) }
{
    let mut sets = vec![in alloc; 0; group.grid.cells() as usize]?;
    group.zones.lay(&group.grid, &group.zone_rules, &mut sets);
    Ok(sets)
}

/// The same rules of ports.
fn copies(alloc: Global, rules: &[PortRule]) -> Result<Vec<PortRule>, OutOfMemory>
    ensures { IfOk result (λ made. made.items ≡ rules.now) }
{
    let mut made = Vec::new(alloc);
    for rule in rules {
        let port = rule.port.clone()?;
        add_port_rule(
            &mut made,
            PortRule {
                port,
                cell: rule.cell,
                rules: rule.rules,
            },
        )?;
    }
    Ok(made)
}

fn add_port_rule(rules: &mut Vec<PortRule>, rule: PortRule) -> Result<(), OutOfMemory>
    ensures { OnOk result (rules.new.items ≡ rules.old.items ++ rule ∷ []) }
{
    rules.push(rule).map_err(AllocError::from)?;
    Ok(())
}
