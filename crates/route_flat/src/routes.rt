// What reaches each port, and where each source leads.
ghost use Rattle.std.specs.Prelude.{◌≡◌, ◌<◌, ◌≤◌, IfOk, length, map};
ghost use Rattle.std.specs.List.{HoldsAt};
ghost use Rattle.quantity.specs.declared.bounds.TheConstants.{MAX_PATHS};
ghost use Rattle.model_leaves.specs.Leaves.{OfTree};
ghost use Rattle.model_tree.specs.Paths.{path_count};
ghost use Rattle.model_leaves.specs.Numbered.{numbers, is_from};
ghost use Rattle.route_flat.specs.Nets.{IsParted, RoutesOf, flat_of_net, paths_in};
ghost use Rattle.route_flat.specs.Ways.{paths_of, ways_of, targets_among};

use crate::by_source::BySource;
use crate::port_lists::PortLists;
use crate::refusal::RouteRefusal;
use crate::way::Way;
use crate::ways::{by_source, ways};
use atomic_face::PortNo;
use model_leaves::{Model, Path, Source, Target};
use port_net::{Net, net_of};
use quantity::MAX_PATHS;
use std::alloc::Global;

/// The sources at each port of each leaf and at each output of top. Seen as these lists.
#[derive(Drop)]
pub struct Routes {
    lists: PortLists,
    /// The paths by their numbers.
    ways: Vec<Way>,
    /// The targets of each source.
    targets: BySource,
}

impl std::marker::Model for Routes {
    ghost use Rattle.std.specs.Prelude.{◌≡◌};
    ghost use Rattle.model_leaves.specs.declared.path.Source.{Source as AnySource};
    ghost use Rattle.route_flat.specs.Nets.{Flat};
    ghost use Rattle.route_flat.specs.Ways.{ways_of, targets_among};
    ghost use Rattle.route_flat.specs.BySource.{list_from};

    ghost Value = { Flat };

    ghost view = { λ r. r.lists };

    ghost invariant = { λ r. record {
      ways : r.ways.items ≡ ways_of r.lists;
      targets : (from : AnySource) → list_from r.targets from ≡ targets_among r.ways.items from;
    } };
}

impl Routes {
    /// The routes of a model. TooManyRoutes comes exactly where there are more than `MAX_PATHS`
    /// paths, from outputs of leaves and inputs of top to inputs of leaves and outputs of top; they
    /// are counted before any is followed.
    pub fn build(alloc: Global, model: &Model) -> Result<Routes, RouteRefusal>
        ensures built { IfOk result (λ r. OfTree model.now (λ t. RoutesOf t r)) }
        ensures few { IfOk result (λ r. OfTree model.now (λ t. path_count t ≤ MAX_PATHS)) }
        ensures many { result ≡ Err RouteRefusal.TooManyRoutes
            → OfTree model.now (λ t. MAX_PATHS < path_count t) }
    {
        let net = net_of(alloc, model)?;
        Routes::of_net(alloc, net)
    }

    /// The routes of a net.
    pub(crate) fn of_net(alloc: Global, net: Net) -> Result<Routes, RouteRefusal>
        requires { IsParted net }
        ensures built { IfOk result (λ r. r ≡ flat_of_net net) }
        ensures few { IfOk result (λ r. paths_in (flat_of_net net) ≤ MAX_PATHS) }
        ensures many { result ≡ Err RouteRefusal.TooManyRoutes
            → MAX_PATHS < paths_in (flat_of_net net) }
    {
        let lists = PortLists::of_net(alloc, net)?;
        let ways = ways(alloc, &lists)?;
        let targets = by_source(alloc, &ways)?;
        Ok(Routes {
            lists,
            ways,
            targets,
        })
    }

    /// The number of input ports of a leaf.
    pub fn ports(&self, leaf: u32) -> u32
        requires { leaf < length self.now.ports }
        ensures { HoldsAt (λ ports. result ≡ length ports) self.now.ports leaf }
    {
        self.lists.ports(leaf)
    }

    /// The sources at an input port of a leaf, in the order in which their values come.
    pub fn sources(&self, leaf: u32, port: PortNo) -> &[Source]
        requires leaf { leaf < length self.now.ports }
        requires port { HoldsAt (λ ports. port.0 < length ports) self.now.ports leaf }
        ensures { HoldsAt (λ ports. HoldsAt
            (λ list. result.now ≡ list) ports port.0) self.now.ports leaf }
    {
        self.lists.sources(leaf, port)
    }

    /// The sources at an output of top, in the order in which their values come.
    pub fn top_sources(&self, out: u16) -> &[Source]
        requires { out < length self.now.tops }
        ensures { HoldsAt (λ list. result.now ≡ list) self.now.tops out }
    {
        self.lists.top_sources(out)
    }

    /// The targets of a source, by rising leaf, port and place among the sources there, and then
    /// the outputs of top. A source that there is not has none.
    pub fn targets(&self, from: Source) -> &[Target]
        ensures targets { result.now ≡ targets_among (ways_of self.now) from }
        ensures numbers { map (λ t. t.path) result.now
            ≡ numbers (is_from from) (paths_of self.now) }
    {
        self.targets.targets(from)
    }

    /// The number of paths. Paths are counted by rising leaf, port and place among the sources
    /// there, and then by outputs of top.
    pub fn path_count(&self) -> usize
        ensures { result ≡ length (paths_of self.now) }
    {
        self.ways.len()
    }

    /// The path of a number.
    pub fn path(&self, number: u32) -> Path
        requires { number < length (paths_of self.now) }
        ensures { HoldsAt (λ path. result ≡ path) (paths_of self.now) number }
    {
        self.ways[number as usize].path
    }
}
