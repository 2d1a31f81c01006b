// The number of sources at each node, kept at `MOST` once it is past `MAX_PATHS`.
ghost use Rattle.std.specs.Prelude.{◌≡◌, ◌≤◌, ◌+◌, min, IfOk, get_or};
ghost use Rattle.std.specs.List.{sum_by};
ghost use Rattle.route_flat.specs.Counts.{count_of, sum_of, AreCounts};

use port_net::Node;
use quantity::{MAX_PATHS, OutOfMemory};
use std::alloc::{AllocError, Global};

/// The most that is counted: one more than there may be.
pub(crate) const MOST: u32 = MAX_PATHS + 1;

/// For each node the number of its sources, or `MOST` where there are more than `MAX_PATHS`: one
/// pass over the links, whatever the numbers.
pub(crate) fn counts(alloc: Global, nodes: &[Node]) -> Result<Vec<u32>, OutOfMemory>
    ensures { IfOk result (λ counts. AreCounts nodes.now counts.items) }
{
    let mut counts = Vec::new(alloc);
    for node in nodes {
        let count = count_of(node, &counts);
        counts.push(count).map_err(AllocError::from)?;
    }
    Ok(counts)
}

/// The number of sources at a node, from those of the nodes before it.
fn count_of(node: &Node, before: &[u32]) -> u32
    ensures { result ≡ count_of node.now before.now }
{
    match node {
        Node::Given(_) => 1,
        Node::Joins(older) => sum_of(older, before),
    }
}

/// The sum of the counts of some nodes, kept at `MOST` once it is past `MAX_PATHS`.
pub(crate) fn sum_of(nodes: &[u32], counts: &[u32]) -> u32
    ensures { result ≡ sum_of nodes.now counts.now }
{
    let mut total: u32 = 0;
    for node in nodes {
        let more = count_at(counts, *node);
        total = (total + more.min(MOST)).min(MOST);
    }
    total
}

/// The count of a node, 0 where there is no such node.
pub(crate) fn count_at(counts: &[u32], node: u32) -> u32
    ensures { result ≡ get_or counts.now node 0 }
{
    match counts.get(node as usize) {
        Some(count) => *count,
        None => 0,
    }
}
