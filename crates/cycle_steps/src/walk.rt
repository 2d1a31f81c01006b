// The loop over the touched leaves.
ghost use Rattle.std.specs.Prelude.{◌≡◌, ◌<◌, ◌≤◌, ◌+◌, ◌++◌, ◌∷◌, [], OnOk, length, slice_set};
ghost use Rattle.std.specs.List.{All, sum_by};
ghost use Rattle.std.specs.List.Sorted.{IsNonDecreasingBy};
ghost use Rattle.quantity.specs.declared.bounds.TheConstants.{MAX_DELAY};
ghost use Rattle.model_tree.specs.Tree.{Tree as AnyTree, leaves};
ghost use Rattle.text_forms.specs.declared.records.XRecord.{XRecord as AnyXRecord};
ghost use Rattle.cycle_steps.specs.Stepping.{StepsEach};
ghost use Rattle.cycle_steps.specs.Whole.{WalksEach};

use crate::bag::bag_at;
use crate::leaves::Leaves;
use crate::room::make_room;
use crate::told::Told;
use crate::waiting::set_next;
use atomic_face::PortNo;
use leaf_set::LeafSet;
use quantity::{MaybeTime, MaybeValueBytes, OutOfMemory, Time, Value};
use run_model::Stop;
use text_forms::{Records, SRecord};
use time_queue::TimeQueue;

/// Moves all touched leaves, each by its bag of the X records, which stand by rising leaf, sets its
/// next time in the queue, and makes the S records. It takes no more visits than the moves of these
/// leaves, also where one stops or memory ends.
pub fn walk<C, Q: TimeQueue, S: LeafSet, M: Leaves<C>>(
    movers: &mut M,
    queue: &mut Q,
    woken: &S,
    touched: &[u32],
    t: Time,
    bag: &mut Vec<(PortNo, Value)>,
    records: &mut Records,
    steps: &mut C,
) -> Result<(), Stop>
    requires time { t ≤ MAX_DELAY }
    requires touched { All (λ l. l < length (M.states movers.old)) touched.now }
    requires waiting { length (Q.waiting queue.old) ≡ length (M.states movers.old) }
    requires woken { length (S.members woken.now) ≡ length (M.states movers.old) }
    requires rise { IsNonDecreasingBy (λ (r : AnyXRecord). r.leaf) records.old.x.items }
    requires ports { All (λ (r : AnyXRecord). r.port.0 < M.ports movers.old r.leaf)
        records.old.x.items }
    requires empty { records.old.s.items ≡ [] }
    // For every model whose leaves these are, and all that was given in the cycle.
    ensures walks { WalksEach (M.stands_for movers.old) (S.members woken.now) t touched.now
        (M.states movers.old) (Q.waiting queue.old) records.old
        (M.states movers.new) (Q.waiting queue.new) records.new result }
    ensures rest { records.new ≡ record records.old { s = records.new.s } }
    ensures stands { (tree : AnyTree) → M.stands_for movers.old tree
        → OnOk result (M.stands_for movers.new tree) }
    ensures kept { M.kept movers.new ≡ M.kept movers.old }
    ensures visits { M.visits steps.new
        ≤ M.visits steps.old + sum_by (M.most movers.old) touched.now }
{
    make_room(&mut records.s, touched.len());
    for leaf in touched {
        match move_and_note(movers, queue, woken, *leaf, t, bag, records, steps) {
            Ok(()) => {}
            Err(stop) => return Err(stop),
        }
    }
    Ok(())
}

/// Moves one leaf.
fn move_and_note<C, Q: TimeQueue, S: LeafSet, M: Leaves<C>>(
    movers: &mut M,
    queue: &mut Q,
    woken: &S,
    leaf: u32,
    t: Time,
    bag: &mut Vec<(PortNo, Value)>,
    records: &mut Records,
    steps: &mut C,
) -> Result<(), Stop>
    requires time { t ≤ MAX_DELAY }
    requires within { leaf < length (M.states movers.old) }
    requires waiting { leaf < length (Q.waiting queue.old) }
    requires woken { leaf < length (S.members woken.now) }
    requires rise { IsNonDecreasingBy (λ (r : AnyXRecord). r.leaf) records.old.x.items }
    requires ports { All (λ (r : AnyXRecord). r.port.0 < M.ports movers.old r.leaf)
        records.old.x.items }
    ensures steps { StepsEach (M.stands_for movers.old) (S.members woken.now) t leaf
        (M.states movers.old) (Q.waiting queue.old) records.old
        (M.states movers.new) (Q.waiting queue.new) records.new result }
    ensures rest { records.new ≡ record records.old { s = records.new.s } }
    ensures stands { (tree : AnyTree) → M.stands_for movers.old tree
        → OnOk result (M.stands_for movers.new tree) }
    ensures kept { M.kept movers.new ≡ M.kept movers.old }
    ensures long { OnOk result (length (M.states movers.new) ≡ length (M.states movers.old)) }
    ensures waiting { OnOk result (length (Q.waiting queue.new) ≡ length (Q.waiting queue.old)) }
    ensures ports { OnOk result (M.ports movers.new ≡ M.ports movers.old) }
    ensures most { OnOk result (M.most movers.new ≡ M.most movers.old) }
    ensures visits { M.visits steps.new ≤ M.visits steps.old + M.most movers.old leaf }
{
    bag.clear();
    let Ok(()) = bag_at(&records.x, leaf, bag) else {
        return Err(Stop::Memory);
    };
    match movers.make_move(leaf, t, woken.has(leaf), bag, steps) {
        Ok(told) => {
            let Ok(()) = note(queue, leaf, t, told, &mut records.s) else {
                return Err(Stop::Memory);
            };
            Ok(())
        }
        Err(why) => Err(Stop::of_leaf(leaf, t, why)),
    }
}

/// Sets a leaf's next time, and appends its S record.
fn note<Q: TimeQueue>(
    queue: &mut Q,
    leaf: u32,
    t: Time,
    told: Told,
    s: &mut Vec<SRecord>,
) -> Result<(), OutOfMemory>
    requires { leaf < length (Q.waiting queue.old) }
    ensures waiting { Q.waiting queue.new ≡ slice_set (Q.waiting queue.old) leaf told.next }
    ensures record { OnOk result (s.new.items ≡ s.old.items
        ++ record { time = t; leaf = leaf; value = told.value; next = told.next } ∷ []) }
{
    set_next(queue, leaf, told.next);
    append_s(t, leaf, told.value, told.next, s)
}

/// Appends an S record.
fn append_s(
    time: Time,
    leaf: u32,
    value: Option<Value>,
    next: Option<Time>,
    s: &mut Vec<SRecord>,
) -> Result<(), OutOfMemory>
    ensures { OnOk result (s.new.items ≡ s.old.items
        ++ record { time = time; leaf = leaf; value = value; next = next } ∷ []) }
{
    let Ok(()) = s.push(SRecord {
        time,
        leaf,
        value: MaybeValueBytes::of(value),
        next: MaybeTime::of(next),
    }) else {
        return Err(OutOfMemory);
    };
    Ok(())
}
