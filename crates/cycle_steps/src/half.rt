// The first half of a cycle: who gives, who is woken, what is fed, and who is touched.
ghost use Rattle.std.specs.Prelude.{◌≡◌, ◌<◌, ◌≤◌, ◌+◌, [], ℕ, Bool, false, List, OnOk, OnErr, length, map, replicate};
ghost use Rattle.std.specs.List.{All};
ghost use Rattle.std.specs.List.Sorted.{IsNonDecreasingBy};
ghost use Rattle.std.specs.Vec.{vec_capacity};
ghost use Rattle.model_leaves.specs.declared.path.Path.{Path as AnyPath};
ghost use Rattle.model_tree.specs.Tree.{Tree, leaves};
ghost use Rattle.text_forms.specs.declared.records.YRecord.{YRecord as AnyYRecord};
ghost use Rattle.text_forms.specs.declared.records.XRecord.{XRecord as AnyXRecord};
ghost use Rattle.text_forms.specs.Held.{AreEmpty, x_at, out_at};
ghost use Rattle.leaf_set.specs.Members.{is_in};
ghost use Rattle.sparse_cycle.specs.Sparse.{due_leaves, given_among};
ghost use Rattle.sparse_cycle.specs.Collect.{givers_among};
ghost use Rattle.cycle_steps.specs.Untimed.{y_records};
ghost use Rattle.cycle_steps.specs.Gathering.{Collects, value_count};
ghost use Rattle.cycle_steps.specs.Watching.{watches_any};
ghost use Rattle.cycle_steps.specs.Routed.{numbers, reaches, values_at, fed_in, out_in};
ghost use Rattle.cycle_steps.specs.Paths.{IsPortOf, target_leaves};
ghost use Rattle.cycle_steps.specs.Half.{due_give, HalfOf, EachRun, AreWoken};

use crate::collect::collect;
use crate::feed::feed;
use crate::leaves::Leaves;
use crate::reach::reach;
use crate::wake::{Watched, touch, wake};
use crate::workspace::Workspace;
use leaf_set::LeafSet;
use model_leaves::Routing;
use quantity::{OutOfMemory, Time, Value};
use text_forms::{OutRecord, Records, XRecord, YRecord};

/// All that comes before the leaves move: for each model and state of a run that stands so, the
/// parts of its cycle. The woken leaves are marked then. It takes no more visits than values are
/// given, also where memory ends.
pub(crate) fn first_half<C, G: Leaves<C>, W: Watched, R: Routing, S: LeafSet>(
    givers: &mut G,
    watched: &W,
    routes: &R,
    work: &mut Workspace<S>,
    t: Time,
    records: &mut Records,
    steps: &mut C,
) -> Result<(), OutOfMemory>
    requires due { work.old.due.items ≡ due_leaves t (G.states givers.old) }
    requires count { W.count watched.now ≡ length (G.states givers.old) }
    requires paths { All (λ (p : AnyPath). IsPortOf (W.count watched.now) (G.ports givers.old) p.to)
        (R.paths routes.now) }
    requires order { IsNonDecreasingBy (λ (k : ℕ). k) (target_leaves (R.paths routes.now)) }
    requires calm { S.members work.old.woken ≡ replicate (W.count watched.now) false }
    requires at_rest { S.members work.old.touched ≡ replicate (W.count watched.now) false }
    requires records { AreEmpty records.old }
    requires moving { work.old.moving.items ≡ [] }
    requires capacity { W.count watched.now ≤ vec_capacity work.old.moving }
    ensures parts { OnOk result (EachRun t work.old (R.paths routes.now)
        (W.watches watched.now) (G.states givers.old)
        (λ tree p. HalfOf p t (G.states givers.new) records.new work.new.moving.items)) }
    ensures woken { OnOk result (EachRun t work.old (R.paths routes.now) (W.watches watched.now)
        (G.states givers.old) (λ tree p. AreWoken (S.members work.new.woken) tree p.given)) }
    ensures long { OnOk result (length (S.members work.new.woken) ≡ W.count watched.now) }
    ensures at_rest { OnOk result
        (S.members work.new.touched ≡ replicate (W.count watched.now) false) }
    ensures s { records.new.s.items ≡ [] }
    ensures due { work.new.due ≡ work.old.due }
    ensures capacity { vec_capacity work.new.moving ≡ vec_capacity work.old.moving }
    ensures count { OnOk result (length (G.states givers.new) ≡ length (G.states givers.old)) }
    ensures within { OnOk result (All (λ l. l < W.count watched.now) work.new.moving.items) }
    ensures none { OnErr result (work.new.moving.items ≡ []) }
    ensures x_rise { OnOk result
        (IsNonDecreasingBy (λ (r : AnyXRecord). r.leaf) records.new.x.items) }
    ensures x_ports { OnOk result
        (All (λ (r : AnyXRecord). r.port.0 < G.ports givers.old r.leaf) records.new.x.items) }
    ensures stands { (tree : Tree) → G.stands_for givers.old tree
        → OnOk result (G.stands_for givers.new tree) }
    ensures kept { G.kept givers.new ≡ G.kept givers.old }
    ensures ports { OnOk result (G.ports givers.new ≡ G.ports givers.old) }
    ensures most { OnOk result (G.most givers.new ≡ G.most givers.old) }
    ensures visits { G.visits steps.new
        ≤ G.visits steps.old + value_count (due_give t (G.states givers.old)) }
{
    sparse_cycle::laws::leaves_give_one_after_another();
    sparse_cycle::laws::cells_are_woken_by_givers();
    sparse_cycle::laws::records_show_what_is_given();
    sparse_cycle::laws::events_stand_by_number();
    work.scratch.clear();
    emit_and_wake(givers, watched, work, t, records, steps)?;
    route(
        routes,
        t,
        &records.y,
        &work.inputs,
        &mut work.scratch.numbers,
        &mut records.x,
        &mut records.out,
    )?;
    touch(&mut work.touched, &work.due, &records.x, &mut work.moving);
    Ok(())
}

/// The due leaves give, and those that watch one that gave something are marked in both sets.
fn emit_and_wake<C, G: Leaves<C>, W: Watched, S: LeafSet>(
    givers: &mut G,
    watched: &W,
    work: &mut Workspace<S>,
    t: Time,
    records: &mut Records,
    steps: &mut C,
) -> Result<(), OutOfMemory>
    requires due { work.old.due.items ≡ due_leaves t (G.states givers.old) }
    requires y { records.old.y.items ≡ [] }
    requires n { records.old.n.items ≡ [] }
    requires who { work.old.scratch.givers.items ≡ [] }
    requires calm { S.members work.old.woken ≡ replicate (W.count watched.now) false }
    requires at_rest { S.members work.old.touched ≡ replicate (W.count watched.now) false }
    ensures collected { OnOk result (Collects t (due_give t (G.states givers.old))
        records.new.y.items records.new.n.items work.new.scratch.givers.items
        (G.states givers.new)) }
    ensures woken { OnOk result ((k : ℕ) → is_in (S.members work.new.woken) k
        ≡ watches_any (W.watches watched.now) (due_give t (G.states givers.old)).givers k) }
    ensures touched { OnOk result ((k : ℕ) → is_in (S.members work.new.touched) k
        ≡ watches_any (W.watches watched.now) (due_give t (G.states givers.old)).givers k) }
    ensures long { OnOk result (length (S.members work.new.woken) ≡ W.count watched.now) }
    ensures touched_long { OnOk result (length (S.members work.new.touched) ≡ W.count watched.now) }
    ensures due { work.new.due ≡ work.old.due }
    ensures inputs { work.new.inputs ≡ work.old.inputs }
    ensures moving { work.new.moving ≡ work.old.moving }
    ensures numbers { work.new.scratch.numbers ≡ work.old.scratch.numbers }
    ensures rest { records.new
        ≡ record records.old { y = records.new.y; n = records.new.n } }
    ensures stands { (tree : Tree) → G.stands_for givers.old tree
        → OnOk result (G.stands_for givers.new tree) }
    ensures kept { G.kept givers.new ≡ G.kept givers.old }
    ensures ports { OnOk result (G.ports givers.new ≡ G.ports givers.old) }
    ensures most { OnOk result (G.most givers.new ≡ G.most givers.old) }
    ensures visits { G.visits steps.new
        ≤ G.visits steps.old + value_count (due_give t (G.states givers.old)) }
{
    sparse_cycle::laws::leaves_give_one_after_another();
    collect(
        givers,
        &work.due,
        t,
        &mut work.scratch.bag,
        &mut records.y,
        &mut records.n,
        &mut work.scratch.givers,
        steps,
    )?;
    wake(
        watched,
        &work.scratch.givers,
        &mut work.scratch.near,
        &mut work.woken,
        &mut work.touched,
    )
}

/// The X records and the outputs of top, by the numbers of the paths that bring something.
fn route<R: Routing>(
    routes: &R,
    t: Time,
    y: &[YRecord],
    inputs: &[(u16, Value)],
    found: &mut Vec<u32>,
    x: &mut Vec<XRecord>,
    out: &mut Vec<OutRecord>,
) -> Result<(), OutOfMemory>
    requires rise { IsNonDecreasingBy (λ (r : AnyYRecord). r.leaf) y.now }
    requires found { found.old.items ≡ [] }
    requires x { x.old.items ≡ [] }
    requires out { out.old.items ≡ [] }
    ensures x { OnOk result (x.new.items
        ≡ map (x_at t) (fed_in (values_at (y_records y.now) inputs.now)
        (R.paths routes.now)
        (numbers (reaches (y_records y.now) inputs.now) (R.paths routes.now)))) }
    ensures out { OnOk result (out.new.items
        ≡ map (out_at t) (out_in (values_at (y_records y.now) inputs.now)
        (R.paths routes.now)
        (numbers (reaches (y_records y.now) inputs.now) (R.paths routes.now)))) }
{
    reach(routes, y, inputs, found)?;
    feed(routes, found, t, y, inputs, x, out)
}
