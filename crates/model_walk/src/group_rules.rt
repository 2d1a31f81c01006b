// The rules of a group.
use model_tree::PortRule;
use rule_tree::RuleTree;

/// The rule sets of a group, that of `localtransition` first, and the numbers of those that its
/// zones and its ports name.
#[derive(Drop)]
pub struct GroupRules {
    pub rule_sets: Vec<Vec<RuleTree>>,
    /// For each zone the number of its rule set.
    pub zone_rules: Vec<usize>,
    pub port_rules: Vec<PortRule>,
}
