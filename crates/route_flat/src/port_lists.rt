// The sources at each port, in lists one behind another.
ghost use Rattle.std.specs.Prelude.{◌≡◌, ◌+◌, ◌<◌, ◌≤◌, IfOk, OnOk, OnErr, length};
ghost use Rattle.std.specs.List.{HoldsAt};
ghost use Rattle.quantity.specs.declared.bounds.TheConstants.{MAX_PATHS};
ghost use Rattle.port_net.specs.Nodes.{part_in_span};
ghost use Rattle.route_flat.specs.Counts.{AreCounts};
ghost use Rattle.route_flat.specs.Nets.{IsParted, flat_of_net, paths_in};

use crate::counts::{counts, sum_of};
use crate::leaf_spans::LeafSpans;
use crate::lists::lists;
use crate::refusal::RouteRefusal;
use atomic_face::PortNo;
use model_leaves::Source;
use port_net::{Net, Span};
use quantity::MAX_PATHS;
use std::alloc::Global;

/// The sources at each port of each leaf and at each output of top. Seen as these lists.
#[derive(Drop)]
pub(crate) struct PortLists {
    /// The ports of each leaf.
    leaves: LeafSpans,
    /// The paths to each port of a leaf.
    ports: Vec<Span>,
    /// The paths to each output of top.
    outputs: Vec<Span>,
    /// The source of each path, by its number: by leaf, port and place, and then by outputs of top.
    paths: Vec<Source>,
}

impl std::marker::Model for PortLists {
    ghost use Rattle.route_flat.specs.Nets.{Flat, AreWithin, flat_of_spans};

    ghost Value = { Flat };

    ghost view = { λ r. flat_of_spans r.leaves r.ports.items r.outputs.items r.paths.items };

    ghost invariant = { λ r. record {
      leaves : AreWithin r.ports.items r.leaves;
      ports : AreWithin r.paths.items r.ports.items;
      outputs : AreWithin r.paths.items r.outputs.items;
    } };
}

impl PortLists {
    /// The lists of a net.
    pub(crate) fn of_net(alloc: Global, net: Net) -> Result<PortLists, RouteRefusal>
        requires { IsParted net }
        ensures built { IfOk result (λ r. r ≡ flat_of_net net) }
        ensures few { IfOk result (λ r. paths_in (flat_of_net net) ≤ MAX_PATHS) }
        ensures many { result ≡ Err RouteRefusal.TooManyRoutes
            → MAX_PATHS < paths_in (flat_of_net net) }
    {
        match few_counts(alloc, &net) {
            Ok(counts) => PortLists::with_counts(alloc, net, &counts),
            Err(refusal) => Err(refusal),
        }
    }

    /// The same, where it is known how many sources stand at each node.
    fn with_counts(alloc: Global, net: Net, counts: &[u32]) -> Result<PortLists, RouteRefusal>
        requires parted { IsParted net }
        requires counts { AreCounts net.nodes.items counts.now }
        ensures built { IfOk result (λ r. r ≡ flat_of_net net) }
        ensures memory { OnErr result (result ≡ Err RouteRefusal.Memory) }
    {
        let mut paths = Vec::new(alloc);
        let ports = lists(alloc, &net.nodes, counts, &net.ports, &mut paths)?;
        let outputs = lists(alloc, &net.nodes, counts, &net.outputs, &mut paths)?;
        Ok(PortLists {
            leaves: LeafSpans::of(net.leaves),
            ports,
            outputs,
            paths,
        })
    }

    /// The number of leaves.
    pub(crate) fn leaf_count(&self) -> usize
        ensures { result ≡ length self.now.ports }
    {
        self.leaves.len()
    }

    /// The number of outputs of top.
    pub(crate) fn top_count(&self) -> usize
        ensures { result ≡ length self.now.tops }
    {
        self.outputs.len()
    }

    /// The number of input ports of a leaf.
    pub(crate) fn ports(&self, leaf: u32) -> u32
        requires { leaf < length self.now.ports }
        ensures { HoldsAt (λ ports. result ≡ length ports) self.now.ports leaf }
    {
        self.leaves.at(leaf).count
    }

    /// The sources at an input port of a leaf, in the order in which their values come.
    pub(crate) fn sources(&self, leaf: u32, port: PortNo) -> &[Source]
        requires leaf { leaf < length self.now.ports }
        requires port { HoldsAt (λ ports. port.0 < length ports) self.now.ports leaf }
        ensures { HoldsAt (λ ports. HoldsAt
            (λ list. result.now ≡ list) ports port.0) self.now.ports leaf }
    {
        let first = self.leaves.at(leaf).first as usize;
        part(&self.paths, self.ports[first + port.0 as usize])
    }

    /// The same at an output of top.
    pub(crate) fn top_sources(&self, out: u16) -> &[Source]
        requires { out < length self.now.tops }
        ensures { HoldsAt (λ list. result.now ≡ list) self.now.tops out }
    {
        part(&self.paths, self.outputs[out as usize])
    }
}

/// For each node of a net the number of its sources, where the paths are not too many.
fn few_counts(alloc: Global, net: &Net) -> Result<Vec<u32>, RouteRefusal>
    requires { IsParted net.now }
    ensures counts { IfOk result (λ counts. AreCounts net.now.nodes.items counts.items) }
    ensures few { OnOk result (paths_in (flat_of_net net.now) ≤ MAX_PATHS) }
    ensures many { result ≡ Err RouteRefusal.TooManyRoutes
        → MAX_PATHS < paths_in (flat_of_net net.now) }
{
    let counts = counts(alloc, &net.nodes)?;
    let to_ports = sum_of(&net.ports, &counts);
    let to_outputs = sum_of(&net.outputs, &counts);
    if to_ports + to_outputs > MAX_PATHS {
        return Err(RouteRefusal::TooManyRoutes);
    }
    Ok(counts)
}

/// The items of a span.
fn part(items: &[Source], span: Span) -> &[Source]
    requires { span.first + span.count ≤ length items.now }
    ensures { result.now ≡ part_in_span items.now span }
{
    let first = span.first as usize;
    &items[first..first + span.count as usize]
}
