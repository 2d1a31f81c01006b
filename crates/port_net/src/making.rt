// The net of a model: first the inputs of top, then what components give, from the leaves up, and
// then what reaches the leaves, from top down.
ghost use Rattle.std.specs.Prelude.{◌≡◌, ℕ, ℤ, List, map, IfOk, OnOk};
ghost use Rattle.std.specs.List.{range_with_len};
ghost use Rattle.model_tree.specs.declared.component.Component.TheVariants as in_tree;
ghost use Rattle.model_tree.specs.Tree.{Word};
ghost use Rattle.model_tree.specs.Pull.{top_sources};
ghost use Rattle.model_tree.specs.Stands.{part_of};
ghost use Rattle.model_leaves.specs.Leaves.{OfTree};
ghost use Rattle.port_net.specs.Nets.{IsNetOf};
ghost use Rattle.port_net.specs.Shown.{AllGive, Extends, input_node};

use crate::growing::Growing;
use crate::net::{Net, Node};
use crate::outputs::outputs_of_coupled;
use crate::ports::{At, Ports};
use crate::rows::put_coupled;
use crate::sources::row;
use model_leaves::{Model, Source};
use model_tree::Coupled;
use quantity::OutOfMemory;
use std::alloc::{AllocError, Global};

/// The net of a model.
pub fn net_of(alloc: Global, model: &Model) -> Result<Net, OutOfMemory>
    ensures { IfOk result (λ net. OfTree model.now (λ t. IsNetOf t net)) }
{
    let top = model.top();
    let mut nodes = inputs(alloc, top.ins.len())?;
    let outputs = outputs_of_top(alloc, top, &mut nodes)?;
    let mut net = Growing {
        nodes,
        ports: Vec::new(alloc),
        leaves: Vec::new(alloc),
    };
    put_coupled(alloc, top, 0, &Ports::Inputs(&top.ins), &mut net)?;
    Ok(Net {
        nodes: net.nodes,
        ports: net.ports,
        leaves: net.leaves,
        outputs,
    })
}

/// The nodes of so many inputs of top. More than `MAX_PORTS` give no net.
fn inputs(alloc: Global, count: usize) -> Result<Vec<Node>, OutOfMemory>
    ensures { IfOk result (λ ns. ns.items ≡ map input_node (range_with_len 0 count)) }
{
    let mut nodes = Vec::new(alloc);
    for i in 0..count {
        let number = u16::try_from(i).map_err(|_| OutOfMemory)?;
        nodes
            .push(Node::Given(Source::TopIn(number)))
            .map_err(AllocError::from)?;
    }
    Ok(nodes)
}

/// The nodes at the outputs of top.
fn outputs_of_top(
    alloc: Global,
    top: &Coupled,
    nodes: &mut Vec<Node>,
) -> Result<Vec<u32>, OutOfMemory>
    ensures extends { OnOk result (Extends nodes.old.items nodes.new.items) }
    ensures gives { IfOk result (λ ks. (ins : List Word) (settings : ℕ → List ℤ)
        → AllGive ins nodes.new.items ks.items
        (top_sources (part_of (in_tree.Coupled top.now) settings))) }
{
    let out = outputs_of_coupled(alloc, top, 0, nodes)?;
    let ports = Ports::Linked(&out.links, At::Own);
    row(alloc, &ports, &top.outs, nodes)
}
