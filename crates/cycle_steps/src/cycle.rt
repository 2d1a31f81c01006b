// One cycle.
ghost use Rattle.std.specs.Prelude.{◌≡◌, ◌≤◌, ◌+◌, [], ℕ, false, List, OnOk, length, replicate};
ghost use Rattle.std.specs.List.{All, sum_by};
ghost use Rattle.std.specs.List.Sorted.{IsNonDecreasingBy};
ghost use Rattle.std.specs.Vec.{vec_capacity};
ghost use Rattle.quantity.specs.declared.bounds.TheConstants.{MAX_DELAY};
ghost use Rattle.model_leaves.specs.declared.path.Path.{Path as AnyPath};
ghost use Rattle.model_tree.specs.Tree.{Tree as AnyTree};
ghost use Rattle.text_forms.specs.Held.{AreEmpty};
ghost use Rattle.sparse_cycle.specs.Sparse.{due_leaves};
ghost use Rattle.cycle_steps.specs.Gathering.{value_count};
ghost use Rattle.cycle_steps.specs.Paths.{IsPortOf, target_leaves};
ghost use Rattle.cycle_steps.specs.Half.{due_give, EachRun};
ghost use Rattle.cycle_steps.specs.Whole.{CyclesEach};

use crate::half::first_half;
use crate::leaves::Leaves;
use crate::wake::Watched;
use crate::walk::walk;
use crate::workspace::Workspace;
use leaf_set::LeafSet;
use model_leaves::Routing;
use quantity::Time;
use run_model::Stop;
use text_forms::Records;
use time_queue::TimeQueue;

/// The cycle at an instant, from the due leaves and the inputs of the instant that stand in the
/// workspace: for each model and state of a run that stands so, what its parts make. The woken
/// leaves stay marked. It takes no more visits than values are given and the moves of the touched
/// leaves take, also where a leaf stops or memory ends.
pub fn cycle_at<C, L: Leaves<C>, W: Watched, R: Routing, S: LeafSet, Q: TimeQueue>(
    leaves: &mut L,
    watched: &W,
    routes: &R,
    queue: &mut Q,
    work: &mut Workspace<S>,
    t: Time,
    records: &mut Records,
    steps: &mut C,
) -> Result<(), Stop>
    requires time { t ≤ MAX_DELAY }
    requires due { work.old.due.items ≡ due_leaves t (L.states leaves.old) }
    requires count { W.count watched.now ≡ length (L.states leaves.old) }
    requires waiting { length (Q.waiting queue.old) ≡ W.count watched.now }
    requires paths { All (λ (p : AnyPath). IsPortOf (W.count watched.now) (L.ports leaves.old) p.to)
        (R.paths routes.now) }
    requires order { IsNonDecreasingBy (λ (k : ℕ). k) (target_leaves (R.paths routes.now)) }
    requires calm { S.members work.old.woken ≡ replicate (W.count watched.now) false }
    requires at_rest { S.members work.old.touched ≡ replicate (W.count watched.now) false }
    requires records { AreEmpty records.old }
    requires moving { work.old.moving.items ≡ [] }
    requires capacity { W.count watched.now ≤ vec_capacity work.old.moving }
    ensures cycles { CyclesEach (L.stands_for leaves.old) t work.old (R.paths routes.now)
        (W.watches watched.now) (L.states leaves.old) (Q.waiting queue.old)
        (L.states leaves.new) (Q.waiting queue.new) records.new result }
    ensures stands { (tree : AnyTree) → L.stands_for leaves.old tree
        → OnOk result (L.stands_for leaves.new tree) }
    ensures kept { L.kept leaves.new ≡ L.kept leaves.old }
    ensures few { EachRun t work.old (R.paths routes.now) (W.watches watched.now)
        (L.states leaves.old) (λ tree p. length work.new.moving.items ≤ length p.touched) }
    ensures due_room { vec_capacity work.new.due ≡ vec_capacity work.old.due }
    ensures moving_room { vec_capacity work.new.moving ≡ vec_capacity work.old.moving }
    ensures long { OnOk result (length (S.members work.new.woken) ≡ W.count watched.now) }
    ensures at_rest { OnOk result
        (S.members work.new.touched ≡ replicate (W.count watched.now) false) }
    ensures visits { L.visits steps.new ≤ L.visits steps.old
        + value_count (due_give t (L.states leaves.old))
        + sum_by (L.most leaves.old) work.new.moving.items }
{
    let Ok(()) = first_half(leaves, watched, routes, work, t, records, steps) else {
        return Err(Stop::Memory);
    };
    walk(
        leaves,
        queue,
        &work.woken,
        &work.moving,
        t,
        &mut work.scratch.bag,
        records,
        steps,
    )
}
