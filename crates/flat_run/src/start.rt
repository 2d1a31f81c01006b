// What a run starts with.
ghost use Rattle.std.specs.Prelude.{◌≡◌, ◌<◌, length, slice_set, IsTrue};
ghost use Rattle.std.specs.List.{All};
ghost use Rattle.model_tree.specs.Tree.{Tree};
ghost use Rattle.model_tree.specs.Sound.{is_sound_model};
ghost use Rattle.run_model.specs.Cycle.{leaf_next};
ghost use Rattle.route_flat.specs.Nets.{Flat, RoutesOf};
ghost use Rattle.route_flat.specs.Ways.{paths_of};
ghost use Rattle.sparse_cycle.specs.Sparse.{leaf_of};
ghost use Rattle.sparse_cycle.specs.Walk.{waits};
ghost use Rattle.run_leaves.specs.Waiting.{WaitsAtStart};
ghost use Rattle.flat_run.specs.Holds.{AreRoutes};

use atomic_face::AtomicModel;
use cycle_steps::waiting::set_next;
use run_leaves::FlatLeaves;
use time_queue::TimeQueue;

/// Each leaf at its start waits in the queue for its next time, and for no other.
pub(crate) fn wait_all<Q: TimeQueue, M: AtomicModel>(leaves: &FlatLeaves<M>, queue: &mut Q)
    requires start { All WaitsAtStart leaves.now.states }
    requires queue { length (Q.waiting queue.old) ≡ length leaves.now.states }
    ensures { Q.waiting queue.new ≡ waits leaves.now.states }
{
    for leaf in 0..leaves.count() {
        wait(leaves, leaf, queue);
    }
}

/// A leaf at its start waits in the queue for its next time, and for no other.
fn wait<Q: TimeQueue, M: AtomicModel>(leaves: &FlatLeaves<M>, leaf: u32, queue: &mut Q)
    requires leaf { leaf < length leaves.now.states }
    requires start { WaitsAtStart (leaf_of leaves.now.states leaf) }
    requires queue { leaf < length (Q.waiting queue.old) }
    ensures { Q.waiting queue.new
        ≡ slice_set (Q.waiting queue.old) leaf (leaf_next (leaf_of leaves.now.states leaf)) }
{
    set_next(queue, leaf, leaves.start_time(leaf));
}

/// The routes of a sound model lead to ports that there are, by rising leaf, and no two inputs of
/// top have one name. The call does nothing.
pub(crate) fn routes_are_ready()
    ensures { (t : Tree) (r : Flat)
        → RoutesOf t r → IsTrue (is_sound_model t) → AreRoutes t (paths_of r) }
{
    route_flat::laws::paths_lead_to_ports();
    route_flat::laws::paths_stand_by_rising_leaf();
    route_flat::laws::each_port_has_its_list();
    sparse_cycle::laws::events_stand_by_number();
}
