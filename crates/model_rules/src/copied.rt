// Copies of rule sets.
ghost use Rattle.std.specs.Prelude.{◌≡◌, map, IfOk};
ghost use Rattle.rule_tree.specs.Expression.{one, two};
ghost use Rattle.rule_tree.specs.InCode.{expr_of, rule_of};
ghost use Rattle.model_rules.specs.Parts.{rules_shown, given, set_to};

use quantity::OutOfMemory;
use rule_tree::{Binary, Give, Node, RuleTree, SetVariable, Unary};
use std::alloc::{AllocError, Global};

/// Copies of these rule sets.
pub(crate) fn copied_sets(
    alloc: Global,
    sets: &[Vec<RuleTree>],
) -> Result<Vec<Vec<RuleTree>>, OutOfMemory>
    ensures { IfOk result (λ made. map rules_shown made.items ≡ map rules_shown sets.now) }
{
    let mut made = Vec::with_capacity(alloc, sets.len())?;
    for rules in sets {
        let copy = copied_rules(alloc, rules)?;
        made.push(copy).map_err(AllocError::from)?;
    }
    Ok(made)
}

fn copied_rules(alloc: Global, rules: &[RuleTree]) -> Result<Vec<RuleTree>, OutOfMemory>
    ensures { IfOk result (λ made. map rule_of made.items ≡ map rule_of rules.now) }
{
    let mut made = Vec::with_capacity(alloc, rules.len())?;
    for rule in rules {
        let copy = copied_rule(alloc, rule)?;
        made.push(copy).map_err(AllocError::from)?;
    }
    Ok(made)
}

fn copied_rule(alloc: Global, rule: &RuleTree) -> Result<RuleTree, OutOfMemory>
    ensures { IfOk result (λ made. rule_of made ≡ rule_of rule.now) }
{
    let gives = copied_gives(alloc, &rule.gives)?;
    let delay = copied_node(alloc, &rule.delay)?;
    let condition = copied_node(alloc, &rule.condition)?;
    let sets = copied_changes(alloc, &rule.sets)?;
    Ok(RuleTree {
        gives,
        delay,
        condition,
        sets,
    })
}

/// Copies of values for ports.
fn copied_gives(alloc: Global, gives: &[Give]) -> Result<Vec<Give>, OutOfMemory>
    ensures { IfOk result (λ made. map given made.items ≡ map given gives.now) }
{
    let mut made = Vec::with_capacity(alloc, gives.len())?;
    for give in gives {
        let value = copied_node(alloc, &give.value)?;
        let copy = Give {
            port: give.port,
            value,
        };
        made.push(copy).map_err(AllocError::from)?;
    }
    Ok(made)
}

/// Copies of values for variables.
fn copied_changes(alloc: Global, sets: &[SetVariable]) -> Result<Vec<SetVariable>, OutOfMemory>
    ensures { IfOk result (λ made. map set_to made.items ≡ map set_to sets.now) }
{
    let mut made = Vec::with_capacity(alloc, sets.len())?;
    for set in sets {
        let value = copied_node(alloc, &set.value)?;
        let copy = SetVariable {
            variable: set.variable,
            value,
        };
        made.push(copy).map_err(AllocError::from)?;
    }
    Ok(made)
}

/// A copy of an expression.
#[cycle(copy)]
fn copied_node(alloc: Global, node: &Node) -> Result<Node, OutOfMemory>
    ensures { IfOk result (λ made. expr_of made ≡ expr_of node.now) }
{
    match node {
        Node::Number(value) => Ok(Node::Number(*value)),
        Node::Truth(truth) => Ok(Node::Truth(*truth)),
        Node::Neighbour(k, port) => Ok(Node::Neighbour(*k, *port)),
        Node::Variable(k) => Ok(Node::Variable(*k)),
        Node::Now => Ok(Node::Now),
        Node::PortValue => Ok(Node::PortValue),
        Node::Counted(count) => Ok(Node::Counted(*count)),
        Node::One(operator, operand) => {
            let operand = copied_node(alloc, operand)?;
            one_of(alloc, *operator, operand)
        }
        Node::Two(operator, left, right) => {
            let left = copied_node(alloc, left)?;
            let right = copied_node(alloc, right)?;
            two_of(alloc, *operator, left, right)
        }
        Node::Call(function, nodes) => {
            let arguments = copied_nodes(alloc, nodes)?;
            Ok(Node::Call(*function, arguments))
        }
    }
}

#[cycle(copy)]
fn copied_nodes(alloc: Global, nodes: &[Node]) -> Result<Vec<Node>, OutOfMemory>
    ensures { IfOk result (λ made. map expr_of made.items ≡ map expr_of nodes.now) }
{
    let mut made = Vec::with_capacity(alloc, nodes.len())?;
    for node in nodes {
        let copy = copied_node(alloc, node)?;
        made.push(copy).map_err(AllocError::from)?;
    }
    Ok(made)
}

fn one_of(alloc: Global, operator: Unary, operand: Node) -> Result<Node, OutOfMemory>
    ensures { IfOk result (λ made. expr_of made ≡ one operator (expr_of operand)) }
{
    let operand = Box::new(alloc, operand).map_err(AllocError::from)?;
    Ok(Node::One(operator, operand))
}

fn two_of(alloc: Global, operator: Binary, left: Node, right: Node) -> Result<Node, OutOfMemory>
    ensures { IfOk result (λ made. expr_of made
        ≡ two operator (expr_of left) (expr_of right)) }
{
    let left = Box::new(alloc, left).map_err(AllocError::from)?;
    let right = Box::new(alloc, right).map_err(AllocError::from)?;
    Ok(Node::Two(operator, left, right))
}
