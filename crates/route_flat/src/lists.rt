// The lists of sources at ports, one behind another.
ghost use Rattle.std.specs.Prelude.{IfOk};
ghost use Rattle.route_flat.specs.Counts.{AreCounts};
ghost use Rattle.route_flat.specs.Lists.{IsList, AreLists};

use crate::follow::follow;
use model_leaves::Source;
use port_net::{Node, Span};
use quantity::{OutOfMemory, counted};
use std::alloc::{AllocError, Global};

/// Appends the lists at these nodes: where each stands.
pub(crate) fn lists(
    alloc: Global,
    nodes: &[Node],
    counts: &[u32],
    ports: &[u32],
    paths: &mut Vec<Source>,
) -> Result<Vec<Span>, OutOfMemory>
    requires { AreCounts nodes.now counts.now }
    ensures { IfOk result
        (λ spans. AreLists nodes.now ports.now paths.old.items paths.new.items spans.items) }
{
    let mut spans = Vec::new(alloc);
    for port in ports {
        let span = list(nodes, counts, *port, paths)?;
        spans.push(span).map_err(AllocError::from)?;
    }
    Ok(spans)
}

/// Appends the list at a node: where it stands.
fn list(
    nodes: &[Node],
    counts: &[u32],
    node: u32,
    paths: &mut Vec<Source>,
) -> Result<Span, OutOfMemory>
    requires { AreCounts nodes.now counts.now }
    ensures { IfOk result (λ span. IsList nodes.now node paths.old.items paths.new.items span) }
{
    let before = paths.len();
    let first = counted(before)?;
    follow(nodes, counts, node, paths)?;
    let count = counted(paths.len().saturating_sub(before))?;
    Ok(Span { first, count })
}
