// How many arguments of functions stand on the stack while a rule is evaluated.
ghost use Rattle.std.specs.Prelude.{◌≡◌, ◌+◌, IfOk, map};
ghost use Rattle.rule_tree.specs.InCode.{expr_of, rule_of};
ghost use Rattle.rule_tree.specs.declared.node.Give.{Give as AnyGive};
ghost use Rattle.rule_tree.specs.declared.node.SetVariable.{SetVariable as AnySet};
ghost use Rattle.rule_forms.specs.Forms.{exprs_in};
ghost use Rattle.rule_forms.specs.Depth.{deepest, depth_of, depth_of_all, rule_depth};

use quantity::OutOfMemory;
use rule_tree::{Give, Node, RuleTree, SetVariable};

/// The most arguments that stand on the stack at once, whichever part of the rule is evaluated.
/// `OutOfMemory` where that is no `usize`: no memory holds so many.
pub(crate) fn depth_of_rule(tree: &RuleTree) -> Result<usize, OutOfMemory>
    ensures { IfOk result (λ depth. depth ≡ rule_depth (rule_of tree.now)) }
{
    let condition = depth_of_node(&tree.condition)?;
    let gives = deepest_of_gives(&tree.gives)?;
    let delay = depth_of_node(&tree.delay)?;
    let sets = deepest_of_sets(&tree.sets)?;
    Ok(condition.max(gives.max(delay.max(sets))))
}

#[tactic(auto, using(crate::proofs::Deepest::give_here, crate::proofs::Stacks::drop_end))]
fn deepest_of_gives(gives: &[Give]) -> Result<usize, OutOfMemory>
    ensures { IfOk result (λ depth. depth
        ≡ deepest (map (λ (g : AnyGive). (g.port, expr_of g.value)) gives.now)) }
{
    let mut most = 0;
    for give in gives {
        most = most.max(depth_of_node(&give.value)?);
    }
    Ok(most)
}

#[tactic(auto, using(crate::proofs::Deepest::set_here, crate::proofs::Stacks::drop_end))]
fn deepest_of_sets(sets: &[SetVariable]) -> Result<usize, OutOfMemory>
    ensures { IfOk result (λ depth. depth
        ≡ deepest (map (λ (x : AnySet). (x.variable, expr_of x.value)) sets.now)) }
{
    let mut most = 0;
    for set in sets {
        most = most.max(depth_of_node(&set.value)?);
    }
    Ok(most)
}

/// The same for one expression. Only a function has its arguments on the stack.
#[cycle(depth)]
fn depth_of_node(node: &Node) -> Result<usize, OutOfMemory>
    ensures { IfOk result (λ depth. depth ≡ depth_of (expr_of node.now)) }
{
    match node {
        Node::One(_, operand) => {
            let operand = depth_of_node(operand)?;
            Ok(operand)
        }
        Node::Two(_, left, right) => {
            let left = depth_of_node(left)?;
            let right = depth_of_node(right)?;
            Ok(left.max(right))
        }
        Node::Call(_, nodes) => {
            let arguments = depth_of_nodes(nodes)?;
            Ok(arguments)
        }
        _ => Ok(0),
    }
}

/// The same for the arguments of a function: each is evaluated above those before it, and at the
/// end all of them stand there.
#[cycle(depth)]
fn depth_of_nodes(nodes: &[Node]) -> Result<usize, OutOfMemory>
    ensures { IfOk result (λ depth. depth ≡ depth_of_all (exprs_in (map expr_of nodes.now))) }
{
    let mut below = 0;
    let mut most = 0;
    for node in nodes {
        let own = depth_of_node(node)?;
        let top = above(below, own)?;
        most = most.max(top);
        below += 1;
    }
    let height = most.max(below);
    Ok(height)
}

/// How many stand on the stack where so many more stand above others.
fn above(below: usize, more: usize) -> Result<usize, OutOfMemory>
    ensures { IfOk result (λ sum. sum ≡ below + more) }
{
    let sum = below.checked_add(more).ok_or(OutOfMemory)?;
    Ok(sum)
}
