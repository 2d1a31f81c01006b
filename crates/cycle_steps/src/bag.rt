// The bag of a leaf, from X records that stand by rising leaf.
ghost use Rattle.std.specs.Prelude.{◌≡◌, ◌<◌, ◌≤◌, ◌++◌, [], ℕ, OnOk, OnErr, length, slice_index_or};
ghost use Rattle.std.specs.List.{All};
ghost use Rattle.std.specs.List.Sorted.{IsNonDecreasingBy};
ghost use Rattle.text_forms.specs.declared.records.XRecord.{XRecord as AnyXRecord};
ghost use Rattle.sparse_cycle.specs.Sparse.{bag_in};
ghost use Rattle.cycle_steps.specs.Untimed.{x_records};

use atomic_face::PortNo;
use quantity::{OutOfMemory, Value};
use text_forms::XRecord;

/// Puts the bag of a leaf into an empty list, which stays empty where memory is refused.
pub(crate) fn bag_at(
    x: &[XRecord],
    leaf: u32,
    into: &mut Vec<(PortNo, Value)>,
) -> Result<(), OutOfMemory>
    requires rise { IsNonDecreasingBy (λ (r : AnyXRecord). r.leaf) x.now }
    requires empty { into.old.items ≡ [] }
    ensures ok { OnOk result (into.new.items ≡ bag_in (x_records x.now) leaf) }
    ensures err { OnErr result (into.new.items ≡ into.old.items) }
{
    if x.is_empty() {
        return Ok(());
    }
    let first = first_fed(x, leaf);
    let Ok(()) = append_bag(leaf, &x[first..], into) else {
        into.clear();
        return Err(OutOfMemory);
    };
    Ok(())
}

/// The number of X records before those of a leaf.
fn first_fed(x: &[XRecord], leaf: u32) -> usize
    requires { IsNonDecreasingBy (λ (r : AnyXRecord). r.leaf) x.now }
    ensures within { result ≤ length x.now }
    ensures before { (k : ℕ) (d : AnyXRecord) → k < result
        → (slice_index_or x.now k d).leaf < leaf }
    ensures above { (k : ℕ) (d : AnyXRecord) → result ≤ k → k < length x.now
        → leaf ≤ (slice_index_or x.now k d).leaf }
{
    x.partition_point(|r| r.leaf < leaf)
}

/// Appends the values of a leaf's X records, which stand in front.
fn append_bag(
    leaf: u32,
    rest: &[XRecord],
    into: &mut Vec<(PortNo, Value)>,
) -> Result<(), OutOfMemory>
    requires rise { IsNonDecreasingBy (λ (r : AnyXRecord). r.leaf) rest.now }
    requires above { All (λ (r : AnyXRecord). leaf ≤ r.leaf) rest.now }
    ensures { OnOk result (into.new.items ≡ into.old.items ++ bag_in (x_records rest.now) leaf) }
{
    for r in rest {
        if r.leaf != leaf {
            return Ok(());
        }
        let Ok(()) = into.push((r.port, r.value.get())) else {
            return Err(OutOfMemory);
        };
    }
    Ok(())
}
