// The sources at a node, found by following what it joins. What brings nothing is not followed.
ghost use Rattle.std.specs.Prelude.{◌≡◌, ◌<◌, ◌&&◌, ◌++◌, take, length, get_or, nat_lt, OnOk};
ghost use Rattle.std.specs.List.{flat_map};
ghost use Rattle.port_net.specs.Nodes.{sources_at};
ghost use Rattle.route_flat.specs.Counts.{AreCounts};

use crate::counts::count_at;
use model_leaves::Source;
use port_net::Node;
use quantity::OutOfMemory;
use std::alloc::AllocError;

/// Appends the sources at a node.
#[cycle(follow)]
pub(crate) fn follow(
    nodes: &[Node],
    counts: &[u32],
    node: u32,
    into: &mut Vec<Source>,
) -> Result<(), OutOfMemory>
    requires { AreCounts nodes.now counts.now }
    ensures { OnOk result (into.new.items ≡ into.old.items ++ sources_at nodes.now node) }
{
    if node as usize >= nodes.len() {
        return Ok(());
    }
    match &nodes[node as usize] {
        Node::Given(source) => {
            into.push(*source).map_err(AllocError::from)?;
            Ok(())
        }
        Node::Joins(older) => follow_all(nodes, counts, node, older, into),
    }
}

/// Appends the sources at these nodes, as far as they are older than the node that joins them.
#[cycle(follow)]
fn follow_all(
    nodes: &[Node],
    counts: &[u32],
    node: u32,
    older: &[u32],
    into: &mut Vec<Source>,
) -> Result<(), OutOfMemory>
    requires counts { AreCounts nodes.now counts.now }
    requires node { node < length nodes.now }
    ensures { let joined = flat_map (sources_at (take node nodes.now)) older.now in
        OnOk result (into.new.items ≡ into.old.items ++ joined) }
{
    for other in older {
        follow_one(nodes, counts, node, *other, into)?;
    }
    Ok(())
}

/// Appends the sources at another node, if it is older.
#[cycle(follow)]
fn follow_one(
    nodes: &[Node],
    counts: &[u32],
    node: u32,
    other: u32,
    into: &mut Vec<Source>,
) -> Result<(), OutOfMemory>
    requires counts { AreCounts nodes.now counts.now }
    requires node { node < length nodes.now }
    ensures { OnOk result
        (into.new.items ≡ into.old.items ++ sources_at (take node nodes.now) other) }
{
    if leads(counts, node, other) {
        follow(nodes, counts, other, into)
    } else {
        Ok(())
    }
}

/// Whether another node is older, and there is a source there.
fn leads(counts: &[u32], node: u32, other: u32) -> bool
    ensures { result ≡ (nat_lt other node && nat_lt 0 (get_or counts.now other 0)) }
{
    (other < node) & (0 < count_at(counts, other))
}
