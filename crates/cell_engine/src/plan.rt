// What a store keeps of its group.
use crate::set_numbers::SetNumbers;
use cell_grid::Grid;
use cell_reach::Reach;
use model_tree::{CellSettings, PortRule};
use rule_eval::RuleCode;
use std::marker::Model;

/// What a store keeps of its group: the space and the offsets, the delays, and the rules with the
/// number of each cell's rule set. It is seen as a layout.
#[derive(Drop)]
pub(crate) struct Plan {
    pub grid: Grid,
    pub settings: CellSettings,
    pub reach: Reach,
    pub rule_sets: Vec<Vec<RuleCode>>,
    // For each cell the number of its rule set.
    pub sets: SetNumbers,
    pub port_rules: Vec<PortRule>,
    // How many further ports and how many variables a cell has.
    pub ports: usize,
    pub variables: usize,
}

impl Model for Plan {
    ghost use Rattle.std.specs.Prelude.{map};
    ghost use Rattle.std.specs.Coded.{codes};
    ghost use Rattle.rule_forms.specs.Signs.{expr_code};
    ghost use Rattle.cell_engine.specs.Layout.{Layout};
    ghost use Rattle.cell_engine.specs.Store.{IsPlan};

    ghost Value = { Layout };

    ghost coded = { Prim.hlevel (codes, expr_code (Prim.hlevel codes)) };

    ghost view = { λ p. record {
      space = p.grid;
      settings = p.settings;
      offsets = p.reach.offsets;
      rule_sets = map (λ rules. rules.items) p.rule_sets.items;
      sets = p.sets;
      port_rules = p.port_rules.items;
      ports = p.ports;
      variables = p.variables;
    } };

    ghost invariant = { λ p. IsPlan (record {
      space = p.grid;
      settings = p.settings;
      offsets = p.reach.offsets;
      rule_sets = map (λ rules. rules.items) p.rule_sets.items;
      sets = p.sets;
      port_rules = p.port_rules.items;
      ports = p.ports;
      variables = p.variables;
    }) p.reach };
}
