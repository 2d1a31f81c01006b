// Nodes that are put behind the others.
ghost use Rattle.std.specs.Prelude.{◌≡◌, [], ◌∷◌, List, IfOk, OnOk, length};
ghost use Rattle.model_tree.specs.Tree.{Word};
ghost use Rattle.model_tree.specs.Pull.{Source as AnySource};
ghost use Rattle.port_net.specs.Shown.{Extends, Gives, Join, leaf_list};

use crate::net::Node;
use model_leaves::Source;
use quantity::{OutOfMemory, counted};
use std::alloc::AllocError;

/// The node of a leaf.
pub(crate) fn give(nodes: &mut Vec<Node>, leaf: u32) -> Result<u32, OutOfMemory>
    ensures extends { OnOk result (Extends nodes.old.items nodes.new.items) }
    ensures gives { IfOk result
        (λ k. (ins : List Word) → Gives ins nodes.new.items k (leaf_list leaf)) }
{
    let number = counted(nodes.len())?;
    nodes
        .push(Node::Given(Source::Leaf(leaf)))
        .map_err(AllocError::from)?;
    Ok(number)
}

/// The node that joins these.
pub(crate) fn join(nodes: &mut Vec<Node>, older: Vec<u32>) -> Result<u32, OutOfMemory>
    ensures extends { OnOk result (Extends nodes.old.items nodes.new.items) }
    ensures joins { IfOk result
        (λ k. (ins : List Word) (xs : List AnySource)
        → Join ins nodes.old.items older.items xs → Gives ins nodes.new.items k xs) }
{
    let number = counted(nodes.len())?;
    nodes.push(Node::Joins(older)).map_err(AllocError::from)?;
    Ok(number)
}
