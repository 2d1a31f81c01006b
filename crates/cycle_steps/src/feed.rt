// What reaches the leaves and the outputs of top.
ghost use Rattle.std.specs.Prelude.{◌≡◌, ◌<◌, ◌≤◌, ◌++◌, ◌∷◌, [], ℕ, List, OnOk, OnErr, length, map, slice_index_or};
ghost use Rattle.std.specs.List.{All};
ghost use Rattle.std.specs.List.Sorted.{IsNonDecreasingBy};
ghost use Rattle.text_forms.specs.declared.records.YRecord.{YRecord as AnyYRecord};
ghost use Rattle.text_forms.specs.Held.{x_at, out_at};
ghost use Rattle.sparse_cycle.specs.Feed.{values_of_leaf};
ghost use Rattle.cycle_steps.specs.Growing.{Grown};
ghost use Rattle.cycle_steps.specs.Untimed.{y_records};
ghost use Rattle.cycle_steps.specs.Routed.{values_at, values_of_input, fed_to, out_to, fed_in, out_in};

use atomic_face::PortNo;
use model_leaves::{Path, Routing, Source, TargetPort};
use quantity::{OutOfMemory, Time, Value, ValueBytes};
use text_forms::{OutRecord, XRecord, YRecord};

/// Appends what these Y records, which stand by rising leaf, and these inputs bring by the paths of
/// these numbers. Where memory is refused, both lists are as before.
pub fn feed<R: Routing>(
    routes: &R,
    numbers: &[u32],
    t: Time,
    y: &[YRecord],
    inputs: &[(u16, Value)],
    x: &mut Vec<XRecord>,
    out: &mut Vec<OutRecord>,
) -> Result<(), OutOfMemory>
    requires within { All (λ k. k < length (R.paths routes.now)) numbers.now }
    requires rise { IsNonDecreasingBy (λ (r : AnyYRecord). r.leaf) y.now }
    ensures x { OnOk result (x.new.items ≡ x.old.items
        ++ map (x_at t) (fed_in (values_at (y_records y.now) inputs.now)
        (R.paths routes.now) numbers.now)) }
    ensures out { OnOk result (out.new.items ≡ out.old.items
        ++ map (out_at t) (out_in (values_at (y_records y.now) inputs.now)
        (R.paths routes.now) numbers.now)) }
    ensures x_kept { OnErr result (x.new.items ≡ x.old.items) }
    ensures out_kept { OnErr result (out.new.items ≡ out.old.items) }
{
    let x_len = x.len();
    let out_len = out.len();
    let Ok(()) = feed_all(routes, numbers, t, y, inputs, x, out) else {
        x.truncate(x_len);
        out.truncate(out_len);
        return Err(OutOfMemory);
    };
    Ok(())
}

/// The same where memory may be refused in between.
fn feed_all<R: Routing>(
    routes: &R,
    numbers: &[u32],
    t: Time,
    y: &[YRecord],
    inputs: &[(u16, Value)],
    x: &mut Vec<XRecord>,
    out: &mut Vec<OutRecord>,
) -> Result<(), OutOfMemory>
    requires within { All (λ k. k < length (R.paths routes.now)) numbers.now }
    requires rise { IsNonDecreasingBy (λ (r : AnyYRecord). r.leaf) y.now }
    ensures x { OnOk result (x.new.items ≡ x.old.items
        ++ map (x_at t) (fed_in (values_at (y_records y.now) inputs.now)
        (R.paths routes.now) numbers.now)) }
    ensures out { OnOk result (out.new.items ≡ out.old.items
        ++ map (out_at t) (out_in (values_at (y_records y.now) inputs.now)
        (R.paths routes.now) numbers.now)) }
    ensures x_grows { Grown x.old.items x.new.items }
    ensures out_grows { Grown out.old.items out.new.items }
{
    for k in numbers {
        let path = routes.path(*k);
        append_path(path, t, y, inputs, x, out)?;
    }
    Ok(())
}

/// Appends what one path brings.
fn append_path(
    path: Path,
    t: Time,
    y: &[YRecord],
    inputs: &[(u16, Value)],
    x: &mut Vec<XRecord>,
    out: &mut Vec<OutRecord>,
) -> Result<(), OutOfMemory>
    requires { IsNonDecreasingBy (λ (r : AnyYRecord). r.leaf) y.now }
    ensures x { OnOk result (x.new.items
        ≡ x.old.items
        ++ map (x_at t) (fed_to path.to (values_at (y_records y.now) inputs.now path.from))) }
    ensures out { OnOk result (out.new.items
        ≡ out.old.items
        ++ map (out_at t) (out_to path.to (values_at (y_records y.now) inputs.now path.from))) }
    ensures x_grows { Grown x.old.items x.new.items }
    ensures out_grows { Grown out.old.items out.new.items }
{
    match path.from {
        Source::Leaf(leaf) => append_from_leaf(leaf, path.to, t, y, x, out),
        Source::TopIn(input) => append_from_input(input, path.to, t, inputs, x, out),
    }
}

/// Appends what a leaf's Y records bring to a port.
fn append_from_leaf(
    leaf: u32,
    to: TargetPort,
    t: Time,
    y: &[YRecord],
    x: &mut Vec<XRecord>,
    out: &mut Vec<OutRecord>,
) -> Result<(), OutOfMemory>
    requires { IsNonDecreasingBy (λ (r : AnyYRecord). r.leaf) y.now }
    ensures x { OnOk result (x.new.items
        ≡ x.old.items ++ map (x_at t) (fed_to to (values_of_leaf (y_records y.now) leaf))) }
    ensures out { OnOk result (out.new.items
        ≡ out.old.items ++ map (out_at t) (out_to to (values_of_leaf (y_records y.now) leaf))) }
    ensures x_grows { Grown x.old.items x.new.items }
    ensures out_grows { Grown out.old.items out.new.items }
{
    let first = first_of(y, leaf);
    append_run(leaf, to, t, &y[first..], x, out)
}

/// The number of Y records before those of a leaf.
fn first_of(y: &[YRecord], leaf: u32) -> usize
    requires { IsNonDecreasingBy (λ (r : AnyYRecord). r.leaf) y.now }
    ensures within { result ≤ length y.now }
    ensures before { (k : ℕ) (d : AnyYRecord) → k < result
        → (slice_index_or y.now k d).leaf < leaf }
    ensures above { (k : ℕ) (d : AnyYRecord) → result ≤ k → k < length y.now
        → leaf ≤ (slice_index_or y.now k d).leaf }
{
    y.partition_point(|r| r.leaf < leaf)
}

/// Appends what a leaf's Y records bring, which stand in front.
fn append_run(
    leaf: u32,
    to: TargetPort,
    t: Time,
    rest: &[YRecord],
    x: &mut Vec<XRecord>,
    out: &mut Vec<OutRecord>,
) -> Result<(), OutOfMemory>
    requires rise { IsNonDecreasingBy (λ (r : AnyYRecord). r.leaf) rest.now }
    requires above { All (λ (r : AnyYRecord). leaf ≤ r.leaf) rest.now }
    ensures x { OnOk result (x.new.items
        ≡ x.old.items ++ map (x_at t) (fed_to to (values_of_leaf (y_records rest.now) leaf))) }
    ensures out { OnOk result (out.new.items
        ≡ out.old.items ++ map (out_at t) (out_to to (values_of_leaf (y_records rest.now) leaf))) }
    ensures x_grows { Grown x.old.items x.new.items }
    ensures out_grows { Grown out.old.items out.new.items }
{
    for r in rest {
        if r.leaf != leaf {
            return Ok(());
        }
        append_value(to, t, r.value.get(), x, out)?;
    }
    Ok(())
}

/// Appends what an input of top brings to a port.
fn append_from_input(
    input: u16,
    to: TargetPort,
    t: Time,
    inputs: &[(u16, Value)],
    x: &mut Vec<XRecord>,
    out: &mut Vec<OutRecord>,
) -> Result<(), OutOfMemory>
    ensures x { OnOk result (x.new.items
        ≡ x.old.items ++ map (x_at t) (fed_to to (values_of_input inputs.now input))) }
    ensures out { OnOk result (out.new.items
        ≡ out.old.items ++ map (out_at t) (out_to to (values_of_input inputs.now input))) }
    ensures x_grows { Grown x.old.items x.new.items }
    ensures out_grows { Grown out.old.items out.new.items }
{
    for e in inputs {
        append_if_from(input, to, t, e.0, e.1, x, out)?;
    }
    Ok(())
}

/// Appends a value where it stands at this input.
fn append_if_from(
    input: u16,
    to: TargetPort,
    t: Time,
    at: u16,
    value: Value,
    x: &mut Vec<XRecord>,
    out: &mut Vec<OutRecord>,
) -> Result<(), OutOfMemory>
    ensures x { OnOk result (x.new.items
        ≡ x.old.items ++ map (x_at t) (fed_to to (values_of_input ((at, value) ∷ []) input))) }
    ensures out { OnOk result (out.new.items
        ≡ out.old.items ++ map (out_at t) (out_to to (values_of_input ((at, value) ∷ []) input))) }
    ensures x_grows { Grown x.old.items x.new.items }
    ensures out_grows { Grown out.old.items out.new.items }
{
    if at == input {
        return append_value(to, t, value, x, out);
    }
    Ok(())
}

/// Appends one value to the X records or to the outputs.
fn append_value(
    to: TargetPort,
    t: Time,
    value: Value,
    x: &mut Vec<XRecord>,
    out: &mut Vec<OutRecord>,
) -> Result<(), OutOfMemory>
    ensures x { OnOk result (x.new.items ≡ x.old.items ++ map (x_at t) (fed_to to (value ∷ []))) }
    ensures out { OnOk result (out.new.items
        ≡ out.old.items ++ map (out_at t) (out_to to (value ∷ []))) }
    ensures x_grows { Grown x.old.items x.new.items }
    ensures out_grows { Grown out.old.items out.new.items }
{
    match to {
        TargetPort::Leaf(leaf, port) => append_x(t, leaf, port, value, x),
        TargetPort::TopOut(port) => append_out(t, port, value, out),
    }
}

/// Appends an X record.
fn append_x(
    time: Time,
    leaf: u32,
    port: PortNo,
    value: Value,
    x: &mut Vec<XRecord>,
) -> Result<(), OutOfMemory>
    ensures ok { OnOk result (x.new.items
        ≡ x.old.items ++ record { time = time; leaf = leaf; port = port; value = value } ∷ []) }
    ensures grows { Grown x.old.items x.new.items }
{
    let Ok(()) = x.push(XRecord {
        time,
        leaf,
        port,
        value: ValueBytes::of(value),
    }) else {
        return Err(OutOfMemory);
    };
    Ok(())
}

/// Appends a record of an output of top.
fn append_out(
    time: Time,
    port: u16,
    value: Value,
    out: &mut Vec<OutRecord>,
) -> Result<(), OutOfMemory>
    ensures ok { OnOk result (out.new.items
        ≡ out.old.items ++ record { time = time; port = port; value = value } ∷ []) }
    ensures grows { Grown out.old.items out.new.items }
{
    let Ok(()) = out.push(OutRecord {
        time,
        port,
        value: ValueBytes::of(value),
    }) else {
        return Err(OutOfMemory);
    };
    Ok(())
}
