// The loop over the due leaves.
ghost use Rattle.std.specs.Prelude.{◌≡◌, ◌≤◌, ◌+◌, ◌++◌, ◌∷◌, [], ℕ, Some, List, OnOk, OnErr, map, length, slice_set};
ghost use Rattle.run_model.specs.Cycle.{LeafState, leaf_next, leaf_emitted, collected_of};
ghost use Rattle.model_tree.specs.Tree.{Tree as AnyTree};
ghost use Rattle.run_model.specs.Run.{port_records};
ghost use Rattle.text_forms.specs.Held.{y_at};
ghost use Rattle.sparse_cycle.specs.Sparse.{leaf_of};
ghost use Rattle.sparse_cycle.specs.Collect.{CanCollect, collect_each, giver_in, y_of, n_of};
ghost use Rattle.cycle_steps.specs.Gathering.{Collects, GaveFirst, value_count};

use crate::leaves::Leaves;
use crate::room::make_room;
use atomic_face::PortNo;
use quantity::{OutOfMemory, Time, Value, ValueBytes};
use text_forms::YRecord;

/// Asks each due leaf: what they gave as Y and N records, the leaves that gave something, and how
/// all leaves stand then. Where memory is refused, the first of them have given, and the lists stay
/// empty. No more visits are counted than values are given, also where memory ends.
pub fn collect<C, G: Leaves<C>>(
    leaves: &mut G,
    due: &[u32],
    t: Time,
    bag: &mut Vec<(PortNo, Value)>,
    y: &mut Vec<YRecord>,
    n: &mut Vec<YRecord>,
    givers: &mut Vec<u32>,
    steps: &mut C,
) -> Result<(), OutOfMemory>
    requires due { CanCollect t due.now (G.states leaves.old) }
    requires y { y.old.items ≡ [] }
    requires n { n.old.items ≡ [] }
    requires givers { givers.old.items ≡ [] }
    ensures collected { OnOk result (Collects t (collect_each t due.now (G.states leaves.old))
        y.new.items n.new.items givers.new.items (G.states leaves.new)) }
    ensures stands { (tree : AnyTree) → G.stands_for leaves.old tree
        → OnOk result (G.stands_for leaves.new tree) }
    ensures kept { G.kept leaves.new ≡ G.kept leaves.old }
    ensures ports { OnOk result (G.ports leaves.new ≡ G.ports leaves.old) }
    ensures most { OnOk result (G.most leaves.new ≡ G.most leaves.old) }
    ensures visits { G.visits steps.new
        ≤ G.visits steps.old + value_count (collect_each t due.now (G.states leaves.old)) }
    ensures gave { GaveFirst t due.now (G.states leaves.old) (G.states leaves.new) }
    ensures y_kept { OnErr result (y.new.items ≡ y.old.items) }
    ensures n_kept { OnErr result (n.new.items ≡ n.old.items) }
    ensures givers_kept { OnErr result (givers.new.items ≡ givers.old.items) }
{
    make_room(y, due.len());
    make_room(givers, due.len());
    let Ok(()) = collect_all(leaves, due, t, bag, y, n, givers, steps) else {
        y.clear();
        n.clear();
        givers.clear();
        return Err(OutOfMemory);
    };
    Ok(())
}

/// The same where the lists may hold a part.
fn collect_all<C, G: Leaves<C>>(
    leaves: &mut G,
    due: &[u32],
    t: Time,
    bag: &mut Vec<(PortNo, Value)>,
    y: &mut Vec<YRecord>,
    n: &mut Vec<YRecord>,
    givers: &mut Vec<u32>,
    steps: &mut C,
) -> Result<(), OutOfMemory>
    requires due { CanCollect t due.now (G.states leaves.old) }
    requires y { y.old.items ≡ [] }
    requires n { n.old.items ≡ [] }
    requires givers { givers.old.items ≡ [] }
    ensures collected { OnOk result (Collects t (collect_each t due.now (G.states leaves.old))
        y.new.items n.new.items givers.new.items (G.states leaves.new)) }
    ensures stands { (tree : AnyTree) → G.stands_for leaves.old tree
        → OnOk result (G.stands_for leaves.new tree) }
    ensures kept { G.kept leaves.new ≡ G.kept leaves.old }
    ensures ports { OnOk result (G.ports leaves.new ≡ G.ports leaves.old) }
    ensures most { OnOk result (G.most leaves.new ≡ G.most leaves.old) }
    ensures visits { G.visits steps.new
        ≤ G.visits steps.old + value_count (collect_each t due.now (G.states leaves.old)) }
    ensures gave { GaveFirst t due.now (G.states leaves.old) (G.states leaves.new) }
{
    for leaf in due {
        bag.clear();
        leaves.emit(*leaf, t, bag, steps)?;
        append_emitted(*leaf, t, bag, y, n)?;
        append_giver(*leaf, bag, givers)?;
    }
    Ok(())
}

/// Appends what a leaf gave to the Y and the N records.
fn append_emitted(
    leaf: u32,
    t: Time,
    bag: &[(PortNo, Value)],
    y: &mut Vec<YRecord>,
    n: &mut Vec<YRecord>,
) -> Result<(), OutOfMemory>
    ensures y { OnOk result (y.new.items
        ≡ y.old.items ++ map (y_at t) (y_of (port_records (leaf, bag.now)))) }
    ensures n { OnOk result (n.new.items
        ≡ n.old.items ++ map (y_at t) (n_of (port_records (leaf, bag.now)))) }
{
    for given in bag {
        append_one(leaf, t, given.0, given.1, y, n)?;
    }
    Ok(())
}

/// Appends a value to the Y records where it stands at the port out, else to the N records.
fn append_one(
    leaf: u32,
    t: Time,
    port: PortNo,
    value: Value,
    y: &mut Vec<YRecord>,
    n: &mut Vec<YRecord>,
) -> Result<(), OutOfMemory>
    ensures y { OnOk result (y.new.items
        ≡ y.old.items ++ map (y_at t) (y_of (port_records (leaf, (port, value) ∷ [])))) }
    ensures n { OnOk result (n.new.items
        ≡ n.old.items ++ map (y_at t) (n_of (port_records (leaf, (port, value) ∷ [])))) }
{
    if port.0 == 0 {
        return append_at(leaf, t, port, value, y);
    }
    append_at(leaf, t, port, value, n)
}

/// Appends a record, which is made here, where its parts are named.
fn append_at(
    leaf: u32,
    time: Time,
    port: PortNo,
    value: Value,
    into: &mut Vec<YRecord>,
) -> Result<(), OutOfMemory>
    ensures { OnOk result (into.new.items
        ≡ into.old.items ++ record { time = time; leaf = leaf; port = port; value = value } ∷ []) }
{
    let Ok(()) = into.push(YRecord {
        time,
        leaf,
        port,
        value: ValueBytes::of(value),
    }) else {
        return Err(OutOfMemory);
    };
    Ok(())
}

/// Appends the leaf where it gave something.
fn append_giver(
    leaf: u32,
    bag: &[(PortNo, Value)],
    givers: &mut Vec<u32>,
) -> Result<(), OutOfMemory>
    ensures { OnOk result (givers.new.items ≡ givers.old.items ++ giver_in leaf bag.now) }
{
    if bag.is_empty() {
        return Ok(());
    }
    let Ok(()) = givers.push(leaf) else {
        return Err(OutOfMemory);
    };
    Ok(())
}
