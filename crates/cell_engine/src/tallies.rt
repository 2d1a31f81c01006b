// How many neighbours show 1, 0 and `?` to each cell, kept while cells give.
ghost use Rattle.std.specs.Prelude.{◌≡◌, [], ◌∷◌, ◌<◌, ◌≤◌, ◌&&◌, ◌==◌, Some, IfOk, IfSome};
ghost use Rattle.std.specs.Prelude.{length, map, replicate, slice_set, slice_index_or};
ghost use Rattle.std.specs.List.{All};
ghost use Rattle.quantity.specs.declared.bounds.TheConstants.{MAX_CELLS};
ghost use Rattle.quantity.specs.declared.value.Value.{Value as AnyValue};
ghost use Rattle.quantity.specs.declared.bounds.TheConstants.{MAX_OFFSETS};
ghost use Rattle.rule_eval.specs.Tallies.{IsTally, CanMove, moved_tally};
ghost use Rattle.cell_grid.specs.Space.{cell_count};
ghost use Rattle.cell_reach.specs.Neighbourhoods.{further, neighbours, opposite_neighbourhood};
ghost use Rattle.cell_engine.specs.Step.{IsBelow, near};
ghost use Rattle.cell_engine.specs.Store.{IsAtDesk};
ghost use Rattle.cell_engine.specs.Tallied.{outs_of, no_tally, moved_at};
ghost use Rattle.cell_engine.specs.Tallied.{AreTallies, AreKept, AreUnseen};

use crate::counting::sets_count;
use crate::desk::Desk;
use crate::plan::Plan;
use crate::sight::further;
use cell_table::CellTable;
use quantity::{OutOfMemory, Value};
use rule_eval::Tally;
use std::alloc::Global;

/// The tallies before the first cycle, when each neighbour shows `?`. None are kept where no rule
/// counts neighbours.
pub(crate) fn first_tallies(
    alloc: Global,
    plan: &Plan,
    places: usize,
) -> Result<Vec<Tally>, OutOfMemory>
    requires { places ≤ MAX_OFFSETS }
    ensures { IfOk result (λ ts. AreUnseen places (cell_count plan.now.space) ts.items) }
{
    let undefs = short(places);
    let unseen = Tally {
        ones: 0,
        zeros: 0,
        undefs,
    };
    let count = kept_for(plan);
    all_of(alloc, unseen, count)
}

/// The same number, which is small.
pub(crate) fn short(places: usize) -> u8
    requires { places ≤ MAX_OFFSETS }
    ensures { result ≡ places }
{
    places as u8
}

/// For how many cells tallies are kept: for all, or for none.
fn kept_for(plan: &Plan) -> usize
    ensures { 0 < result → result ≡ cell_count plan.now.space }
{
    if sets_count(&plan.rule_sets) {
        plan.grid.cells() as usize
    } else {
        0
    }
}

/// So many times the same tally.
fn all_of(alloc: Global, tally: Tally, count: usize) -> Result<Vec<Tally>, OutOfMemory>
    ensures { IfOk result (λ ts. ts.items ≡ replicate count tally) }
{
    Ok(vec![in alloc; tally; count]?)
}

/// The tally of a cell, where it is kept.
#[inline(always)]
pub(crate) fn tally_of(tallies: &[Tally], i: u32) -> Option<Tally>
    ensures within { IfSome result (λ t. i < length tallies.now) }
    ensures value { IfSome result (λ t. t ≡ slice_index_or tallies.now i no_tally) }
{
    let at = i as usize;
    if at < tallies.len() {
        Some(tallies[at])
    } else {
        None
    }
}

/// The tallies follow what a cell shows, which showed this value before.
#[inline(always)]
pub(crate) fn follow(
    plan: &Plan,
    table: &CellTable,
    i: u32,
    before: &Value,
    desk: &mut Desk,
    tallies: &mut Vec<Tally>,
)
    requires cell { i < length table.now.cells }
    requires ready { IsAtDesk plan.now table.now desk.old }
    requires kept { AreKept (near plan.now) (slice_set (outs_of table.now) i before.now)
        tallies.old.items }
    ensures ready { IsAtDesk plan.now table.now desk.new }
    ensures kept { AreKept (near plan.now) (outs_of table.now) tallies.new.items }
{
    let count = tallies.len();
    if count == 0 {
        return;
    }
    move_on(plan, table, i, before, &mut desk.neighbours, tallies);
}

/// The same where they are kept. Nothing is done where the cell is counted as before.
#[inline(never)]
fn move_on(
    plan: &Plan,
    table: &CellTable,
    i: u32,
    before: &Value,
    around: &mut [Option<u32>],
    tallies: &mut [Tally],
)
    requires cell { i < cell_count plan.now.space }
    requires cells { length table.now.cells ≡ cell_count plan.now.space }
    requires places { length around.old ≡ length plan.now.offsets }
    requires whole { length tallies.old ≡ cell_count plan.now.space }
    requires tallies { AreTallies (near plan.now) (slice_set (outs_of table.now) i before.now)
        tallies.old }
    ensures { AreTallies (near plan.now) (outs_of table.now) tallies.new }
{
    let gone = Tally::one(before);
    let shown = table.emitted(i, 0);
    let come = Tally::one(&shown);
    if are_same(gone, come) {
        return;
    }
    // For the proof: there are at most `MAX_CELLS` cells.
    let _most = plan.grid.cells();
    match plan.reach.watching_differences(i) {
        Some(differences) => {
            move_further(plan, table, i, before, gone, come, differences, tallies);
        }
        None => {
            plan.reach.watchers_by_offset(i, around);
            move_all(plan, table, i, before, gone, come, around, tallies);
        }
    }
}

/// Whether two tallies have the same numbers.
#[inline(always)]
pub(crate) fn are_same(a: Tally, b: Tally) -> bool
    ensures { result ≡ ((a.ones == b.ones) && (a.zeros == b.zeros) && (a.undefs == b.undefs)) }
{
    let ones = a.ones == b.ones;
    let zeros = a.zeros == b.zeros;
    let undefs = a.undefs == b.undefs;
    ones & zeros & undefs
}

/// Each cell that has cell i as its neighbour counts it by what it shows now, once for each offset
/// that leads there. Out of line, as it is rare.
#[inline(never)]
fn move_all(
    plan: &Plan,
    table: &CellTable,
    i: u32,
    before: &Value,
    gone: Tally,
    come: Tally,
    watchers: &[Option<u32>],
    tallies: &mut [Tally],
)
    requires cell { i < cell_count plan.now.space }
    requires cells { length table.now.cells ≡ cell_count plan.now.space }
    requires few { length plan.now.offsets ≤ MAX_OFFSETS }
    requires gone { IsTally gone (before.now ∷ []) }
    requires come { IsTally come (slice_index_or (outs_of table.now) i AnyValue.Undefined ∷ []) }
    requires watchers { watchers.now ≡ neighbours (opposite_neighbourhood (near plan.now)) i }
    requires whole { length tallies.old ≡ cell_count plan.now.space }
    requires tallies { AreTallies (near plan.now) (slice_set (outs_of table.now) i before.now)
        tallies.old }
    ensures { AreTallies (near plan.now) (outs_of table.now) tallies.new }
{
    for watcher in watchers {
        move_for(*watcher, gone, come, tallies);
    }
    // For the proof: only the clauses and the loop's invariant speak of these.
    let _plan = plan;
    let _table = table;
    let _cell = i;
    let _before = before;
}

/// The same, where the numbers of these cells are so much further.
fn move_further(
    plan: &Plan,
    table: &CellTable,
    i: u32,
    before: &Value,
    gone: Tally,
    come: Tally,
    differences: &[i32],
    tallies: &mut [Tally],
)
    requires cell { i < cell_count plan.now.space }
    requires number { i < MAX_CELLS }
    requires cells { length table.now.cells ≡ cell_count plan.now.space }
    requires few { length plan.now.offsets ≤ 128 }
    requires gone { IsTally gone (before.now ∷ []) }
    requires come { IsTally come (slice_index_or (outs_of table.now) i AnyValue.Undefined ∷ []) }
    requires most { length tallies.old ≤ MAX_CELLS }
    requires inside { All (IsBelow (length tallies.old) i) differences.now }
    requires lead { neighbours (opposite_neighbourhood (near plan.now)) i
        ≡ map (λ d. Some (further i d)) differences.now }
    requires whole { length tallies.old ≡ cell_count plan.now.space }
    requires tallies { AreTallies (near plan.now) (slice_set (outs_of table.now) i before.now)
        tallies.old }
    ensures { AreTallies (near plan.now) (outs_of table.now) tallies.new }
{
    for difference in differences {
        move_one(tallies, further(i, *difference), gone, come);
    }
    // For the proof: only the clauses and the loop's invariant speak of these.
    let _plan = plan;
    let _table = table;
    let _before = before;
}

/// The tally of a cell is moved, if one is.
#[inline(always)]
fn move_for(watcher: Option<u32>, gone: Tally, come: Tally, tallies: &mut [Tally])
    requires within { IfSome watcher (λ x. x < length tallies.old) }
    requires can { IfSome watcher
        (λ x. CanMove (slice_index_or tallies.old x no_tally) gone come) }
    ensures { tallies.new ≡ moved_at watcher gone come tallies.old }
{
    match watcher {
        Some(cell) => move_one(tallies, cell as usize, gone, come),
        None => {}
    }
}

#[inline(always)]
fn move_one(tallies: &mut [Tally], cell: usize, gone: Tally, come: Tally)
    requires within { cell < length tallies.old }
    requires can { CanMove (slice_index_or tallies.old cell no_tally) gone come }
    ensures { tallies.new ≡ slice_set tallies.old cell
        (moved_tally (slice_index_or tallies.old cell no_tally) gone come) }
{
    let tally = tally_at(tallies, cell);
    tallies[cell] = tally.moved(gone, come);
}

/// The tally of a cell, of which it is known that it is kept.
#[inline(always)]
fn tally_at(tallies: &[Tally], cell: usize) -> Tally
    requires { cell < length tallies.now }
    ensures { result ≡ slice_index_or tallies.now cell no_tally }
{
    tallies[cell]
}
