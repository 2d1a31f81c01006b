// Which paths bring something.
ghost use Rattle.std.specs.Prelude.{◌≡◌, ◌++◌, [], OnOk, OnErr, map};
ghost use Rattle.cycle_steps.specs.Untimed.{y_records};
ghost use Rattle.cycle_steps.specs.Routed.{numbers, reaches};
ghost use Rattle.cycle_steps.specs.Leading.{from_leaves, from_tops, AddsNumbers, AddsBoth};

use model_leaves::{Routing, Source, Target};
use quantity::{OutOfMemory, Value};
use text_forms::YRecord;

/// Puts the rising numbers of the paths at whose source a Y record or an input stands into an empty
/// list, which stays empty where memory is refused.
pub fn reach<R: Routing>(
    routes: &R,
    y: &[YRecord],
    inputs: &[(u16, Value)],
    into: &mut Vec<u32>,
) -> Result<(), OutOfMemory>
    requires { into.old.items ≡ [] }
    ensures ok { OnOk result (into.new.items
        ≡ numbers (reaches (y_records y.now) inputs.now) (R.paths routes.now)) }
    ensures err { OnErr result (into.new.items ≡ into.old.items) }
{
    let Ok(()) = reach_from_all(routes, y, inputs, into) else {
        into.clear();
        return Err(OutOfMemory);
    };
    into.sort_unstable();
    into.dedup();
    Ok(())
}

/// Appends the numbers of the paths that begin where a Y record or an input stands.
fn reach_from_all<R: Routing>(
    routes: &R,
    y: &[YRecord],
    inputs: &[(u16, Value)],
    into: &mut Vec<u32>,
) -> Result<(), OutOfMemory>
    ensures { OnOk result (AddsBoth (from_leaves (R.paths routes.now) y.now)
        (from_tops (R.paths routes.now) inputs.now) into.old.items into.new.items) }
{
    reach_from_leaves(routes, y, into)?;
    reach_from_tops(routes, inputs, into)
}

/// Appends the numbers of the paths that begin where a Y record stands.
fn reach_from_leaves<R: Routing>(
    routes: &R,
    y: &[YRecord],
    into: &mut Vec<u32>,
) -> Result<(), OutOfMemory>
    ensures { OnOk result
        (AddsNumbers (from_leaves (R.paths routes.now) y.now) into.old.items into.new.items) }
{
    for r in y {
        append_numbers(routes.targets(Source::Leaf(r.leaf)), into)?;
    }
    Ok(())
}

/// Appends the numbers of the paths that begin where an input stands.
fn reach_from_tops<R: Routing>(
    routes: &R,
    inputs: &[(u16, Value)],
    into: &mut Vec<u32>,
) -> Result<(), OutOfMemory>
    ensures { OnOk result
        (AddsNumbers (from_tops (R.paths routes.now) inputs.now) into.old.items into.new.items) }
{
    for e in inputs {
        append_numbers(routes.targets(Source::TopIn(e.0)), into)?;
    }
    Ok(())
}

/// Appends the numbers of the paths to these targets.
fn append_numbers(targets: &[Target], into: &mut Vec<u32>) -> Result<(), OutOfMemory>
    ensures { OnOk result (into.new.items ≡ into.old.items ++ map (λ t. t.path) targets.now) }
{
    for target in targets {
        let Ok(()) = into.push(target.path) else {
            return Err(OutOfMemory);
        };
    }
    Ok(())
}
