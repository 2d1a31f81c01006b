// Who is woken by those that gave, and who is touched.
ghost use Rattle.std.specs.Prelude.{◌≡◌, ◌<◌, ◌≤◌, [], ℕ, Bool, false};
ghost use Rattle.std.specs.Prelude.{List, OnOk, OnErr, length, replicate};
ghost use Rattle.std.specs.List.{All};
ghost use Rattle.std.specs.Vec.{vec_capacity};
ghost use Rattle.text_forms.specs.declared.records.XRecord.{XRecord as AnyXRecord};
ghost use Rattle.leaf_set.specs.Members.{is_in};
ghost use Rattle.quantity.specs.Bytes.{has_number};
ghost use Rattle.sparse_cycle.specs.Wake.{is_fed, reached_leaves};
ghost use Rattle.cycle_steps.specs.Untimed.{x_records};
ghost use Rattle.cycle_steps.specs.Marking.{Marks};
ghost use Rattle.cycle_steps.specs.Watching.{watches_any};

use leaf_set::LeafSet;
use quantity::OutOfMemory;
use text_forms::XRecord;

/// Leaves of which each knows who watches it.
pub trait Watched {
    ghost use Rattle.std.specs.Prelude.{ℕ, Bool};

    /// How many leaves there are.
    ghost count: { Self → ℕ };

    /// Whether the first leaf watches the second.
    ghost watches: { Self → ℕ → ℕ → Bool };

    /// Puts the leaves that watch a leaf into a list, in place of what it holds, in any order. Where
    /// memory is refused, the list stays as it was.
    fn watchers_of(&self, leaf: u32, into: &mut Vec<u32>) -> Result<(), OutOfMemory>
        ensures within { OnOk result (All (λ k. k < count self.now) into.new.items) }
        ensures watch { OnOk result ((k : ℕ) → has_number into.new.items k
            ≡ watches self.now k leaf) }
        ensures err { OnErr result (into.new.items ≡ into.old.items) };
}

/// All of these leaves are in as well.
pub(crate) fn mark_all<S: LeafSet>(set: &mut S, leaves: &[u32])
    requires within { All (λ l. l < length (S.members set.old)) leaves.now }
    ensures long { length (S.members set.new) ≡ length (S.members set.old) }
    ensures marked { Marks (has_number leaves.now) (S.members set.old) (S.members set.new) }
{
    for leaf in leaves {
        set.insert(*leaf);
    }
}

/// Marks the leaves that watch a giver, in two sets that have the same members. Most are marked
/// more than once, so it is done in one set, and the other is joined with it.
pub(crate) fn wake<W: Watched, S: LeafSet>(
    watched: &W,
    givers: &[u32],
    near: &mut Vec<u32>,
    woken: &mut S,
    touched: &mut S,
) -> Result<(), OutOfMemory>
    requires woken { length (S.members woken.old) ≡ W.count watched.now }
    requires same { S.members touched.old ≡ S.members woken.old }
    ensures long { OnOk result (length (S.members woken.new) ≡ length (S.members woken.old)) }
    ensures woken { OnOk result (Marks (watches_any (W.watches watched.now) givers.now)
        (S.members woken.old) (S.members woken.new)) }
    ensures same { OnOk result (S.members touched.new ≡ S.members woken.new) }
{
    for leaf in givers {
        watched.watchers_of(*leaf, near)?;
        mark_all(woken, near);
    }
    touched.join(woken);
    Ok(())
}

/// Takes the leaves that are marked, due or fed, rising. None is marked then.
pub(crate) fn touch<S: LeafSet>(touched: &mut S, due: &[u32], fed: &[XRecord], into: &mut Vec<u32>)
    requires due { All (λ l. l < length (S.members touched.old)) due.now }
    requires fed { All (λ (r : AnyXRecord). r.leaf < length (S.members touched.old)) fed.now }
    requires empty { into.old.items ≡ [] }
    requires room { length (S.members touched.old) ≤ vec_capacity into.old }
    ensures taken { into.new.items
        ≡ reached_leaves (is_in (S.members touched.old)) (length (S.members touched.old))
        due.now (x_records fed.now) }
    ensures left { S.members touched.new ≡ replicate (length (S.members touched.old)) false }
    ensures capacity { vec_capacity into.new ≡ vec_capacity into.old }
{
    mark_all(touched, due);
    mark_fed(touched, fed);
    touched.take_all(into);
}

/// The leaves of these records are in as well.
fn mark_fed<S: LeafSet>(set: &mut S, fed: &[XRecord])
    requires within { All (λ (r : AnyXRecord). r.leaf < length (S.members set.old)) fed.now }
    ensures long { length (S.members set.new) ≡ length (S.members set.old) }
    ensures marked { Marks (is_fed (x_records fed.now)) (S.members set.old) (S.members set.new) }
{
    for r in fed {
        set.insert(r.leaf);
    }
}
