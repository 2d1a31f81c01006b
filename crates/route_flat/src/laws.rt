// Laws of routes.
ghost use Rattle.std.specs.Prelude.{ℕ, length};
ghost use Rattle.std.specs.List.{All};
ghost use Rattle.std.specs.List.Sorted.{IsNonDecreasingBy};
ghost use Rattle.model_leaves.specs.declared.path.Path.{Path as AnyPath};
ghost use Rattle.model_tree.specs.Tree.{Tree};
ghost use Rattle.model_leaves.specs.Numbered.{IsPortOf, target_leaves};
ghost use Rattle.route_flat.specs.Nets.{Flat, RoutesOf};
ghost use Rattle.route_flat.specs.Ways.{paths_of};
ghost use Rattle.route_flat.specs.TreePaths.{PathsOfTree};
ghost use Rattle.route_flat.specs.TargetExamples.{TargetsAreSeen};
ghost use Rattle.route_flat.specs.Ports.{port_count, CoversPorts};

/// Sources lead where these examples say, each as the source of its place.
pub fn targets_are_seen()
    ensures { TargetsAreSeen }
{}

/// The paths of a tree's routes are the paths of the tree, in its order: by leaf, port and place
/// among the sources of the port, and then by outputs of top. Those from inputs of top begin at one
/// that there is.
pub fn paths_are_those_of_the_tree()
    ensures { (t : Tree) (r : Flat) → RoutesOf t r → PathsOfTree t r }
{}

/// Each path leads to a port that there is.
pub fn paths_lead_to_ports()
    ensures { (r : Flat)
        → All (λ (p : AnyPath). IsPortOf (length r.ports) (port_count r) p.to) (paths_of r) }
{}

/// The paths to leaves stand by rising leaf.
pub fn paths_stand_by_rising_leaf()
    ensures { (r : Flat) → IsNonDecreasingBy (λ (k : ℕ). k) (target_leaves (paths_of r)) }
{}

/// A tree's routes have a list for each port of each of its leaves, and for each output of top.
pub fn each_port_has_its_list()
    ensures { (t : Tree) (r : Flat) → RoutesOf t r → CoversPorts t r }
{}
