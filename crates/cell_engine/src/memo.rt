// What rules gave for an own value and counts, kept for the next time, when it is taken without
// the evaluator.
ghost use Rattle.std.specs.Prelude.{◌≡◌, ◌<◌, ◌≤◌, ℕ, List, [], Some, None, Ok, length, replicate};
ghost use Rattle.std.specs.Prelude.{slice_index_or, IfOk, IfSome, IsTrue};
ghost use Rattle.std.specs.List.{All};
ghost use Rattle.quantity.specs.declared.bounds.TheConstants.{MAX_DELAY, MAX_OFFSETS};
ghost use Rattle.rule_tree.specs.Expression.{Rule};
ghost use Rattle.rule_tree.specs.Chosen.{outcome_of_rules};
ghost use Rattle.rule_tree.specs.Meaning.{outs};
ghost use Rattle.rule_forms.specs.ByPort.{Evaluates};
ghost use Rattle.rule_forms.specs.Depth.{rule_depth};
ghost use Rattle.rule_eval.specs.Tallies.{IsTally};
ghost use Rattle.cell_table.specs.Told.{cell_at, OnlyCell};
ghost use Rattle.cell_engine.specs.Step.{near, sees, GoesByOwn};
ghost use Rattle.cell_engine.specs.Store.{IsAtDesk};
ghost use Rattle.cell_engine.specs.Tallied.{outs_of, AreTallies};
ghost use Rattle.cell_engine.specs.Known.{no_offset, seen_at, IsOwn, IsAlike, AlwaysGive};
ghost use Rattle.cell_engine.specs.Known.{IsAnswer, IsConstant, IsMemo};

use crate::desk::Desk;
use crate::plan::Plan;
use crate::step::{by_own, codes_at, evaluate_cell, later, take_lent};
use crate::tallies::{are_same, short, tally_of};
use cell_table::CellTable;
use quantity::{Offset, OutOfMemory, Time, Value};
use rule_eval::{Constant, Given, Lent, RuleCode, Tally, go_by_few};
use run_model::LeafStop;
use std::alloc::Global;

/// An own value and counts, and what the rules give for them, where that is known.
#[derive(Clone, Copy)]
pub(crate) struct Known {
    pub own: Value,
    pub tally: Tally,
    pub made: Option<Constant>,
}

/// What is kept: 256 answers, or none where rules go by more than own value and counts.
#[derive(Drop)]
pub(crate) struct Memo {
    // By which offset a cell sees itself.
    pub own: u8,
    pub known: Vec<Known>,
}

/// Room for answers, where the group's rules and cells are of that kind. A group of less than 1024
/// cells keeps none, so that many of them take no room.
pub(crate) fn memo_of(
    alloc: Global,
    plan: &Plan,
    offsets: &[Offset],
    tallies: &[Tally],
) -> Result<Memo, OutOfMemory>
    requires offsets { offsets.now ≡ plan.now.offsets }
    requires few { length offsets.now ≤ MAX_OFFSETS }
    ensures { IfOk result (λ m. IsMemo plan.now m.own m.known.items) }
{
    match own_place(offsets) {
        Some(own) => memo_by(alloc, plan, own, tallies),
        None => Ok(empty(alloc)),
    }
}

/// No room.
fn empty(alloc: Global) -> Memo
    ensures { result.known.items ≡ [] }
{
    Memo {
        own: 0,
        known: Vec::new(alloc),
    }
}

/// The same where a cell sees itself by the offset of this number.
fn memo_by(alloc: Global, plan: &Plan, own: u8, tallies: &[Tally]) -> Result<Memo, OutOfMemory>
    requires { IsOwn plan.now.offsets own }
    ensures { IfOk result (λ m. IsMemo plan.now m.own m.known.items) }
{
    let count = kept_for(plan, own, tallies);
    let nothing = free();
    let known = all_of(alloc, nothing, count)?;
    Ok(Memo { own, known })
}

/// How many answers are kept.
fn kept_for(plan: &Plan, own: u8, tallies: &[Tally]) -> usize
    requires { IsOwn plan.now.offsets own }
    ensures { 0 < result → IsAlike plan.now own }
{
    if is_alike(plan, own) {
        room_for(tallies.len())
    } else {
        0
    }
}

/// How many answers so many cells keep.
fn room_for(cells: usize) -> usize {
    if cells < 1024 { 0 } else { 256 }
}

/// Whether cells have no variables and one set of rules, which go by own value and counts.
fn is_alike(plan: &Plan, own: u8) -> bool
    requires { IsOwn plan.now.offsets own }
    ensures { IsTrue result → IsAlike plan.now own }
{
    if is_single(plan) {
        let rules = codes_at(plan, 0);
        go_by_few(rules, own)
    } else {
        false
    }
}

fn is_single(plan: &Plan) -> bool
    ensures { IsTrue result → (plan.now.variables ≡ 0) × (length plan.now.rule_sets ≡ 1) }
{
    let none = plan.variables == 0;
    let one = plan.rule_sets.len() == 1;
    none & one
}

/// A place where nothing is kept.
fn free() -> Known
    ensures { result.made ≡ None }
{
    Known {
        own: Value::Undefined,
        tally: Tally {
            ones: 0,
            zeros: 0,
            undefs: 0,
        },
        made: None,
    }
}

fn all_of(alloc: Global, known: Known, count: usize) -> Result<Vec<Known>, OutOfMemory>
    ensures { IfOk result (λ ks. ks.items ≡ replicate count known) }
{
    // For the proof: the types of what is kept are named.
    let _own: Option<Value> = None;
    let _given: Option<Given> = None;
    let _made: Option<Constant> = None;
    Ok(vec![in alloc; known; count]?)
}

/// By which offset a cell sees itself, if by any.
fn own_place(offsets: &[Offset]) -> Option<u8>
    requires { length offsets.now ≤ MAX_OFFSETS }
    ensures { IfSome result (IsOwn offsets.now) }
{
    for k in 0..offsets.len() {
        if is_own(offsets, k) {
            return Some(short(k));
        }
    }
    None
}

/// Whether the offset of this number leads nowhere.
fn is_own(offsets: &[Offset], k: usize) -> bool
    requires { k < length offsets.now }
    ensures { IsTrue result → slice_index_or offsets.now k no_offset ≡ no_offset }
{
    let offset = offset_at(offsets, k);
    is_nothing(&offset)
}

fn offset_at(offsets: &[Offset], k: usize) -> Offset
    requires { k < length offsets.now }
    ensures { result ≡ slice_index_or offsets.now k no_offset }
{
    offsets[k]
}

fn is_nothing(offset: &Offset) -> bool
    ensures { IsTrue result → offset.now ≡ no_offset }
{
    let row = offset.row == 0;
    let column = offset.column == 0;
    row & column & (offset.plane == 0)
}

/// A cell takes what is kept for its own value and counts, else what its rules give.
#[inline(always)]
pub(crate) fn by_few(
    plan: &Plan,
    i: u32,
    t: Time,
    tally: Tally,
    tallies: &[Tally],
    memo: &mut Memo,
    table: &mut CellTable,
    desk: &mut Desk,
) -> Result<(), LeafStop>
    requires ready { IsAtDesk plan.now table.old desk.old }
    requires time { t ≤ MAX_DELAY }
    requires cell { i < length table.old.cells }
    requires tally { IsTally tally (outs (sees plan.now t table.old i)) }
    requires tallies { AreTallies (near plan.now) (outs_of table.old) tallies.now }
    requires memo { IsMemo plan.now memo.old.own memo.old.known.items }
    requires some { 0 < length memo.old.known.items }
    ensures cell { GoesByOwn plan.now t i table.old table.new result }
    ensures only { OnlyCell i table.old.cells table.new.cells }
    ensures ready { IsAtDesk plan.now table.new desk.new }
    ensures memo { IsMemo plan.now memo.new.own memo.new.known.items }
{
    // For the proof: each cell has `width` ports, at most 4, and at most 8 variables.
    let _width = table.width();
    let own = table.emitted(i, 0);
    let at = slot(&own, tally);
    match answer_at(&memo.known, at, &own, tally) {
        Some(kept) => take_lent(
            table,
            i,
            plan.settings.kind,
            later(t, kept.delay),
            &kept.given,
        ),
        None => elsewhere(plan, i, t, tallies, memo, table, desk),
    }
}

/// The same. What a call gives is set to zero where its caller begins, so this one begins only here.
#[inline(always)]
fn elsewhere(
    plan: &Plan,
    i: u32,
    t: Time,
    tallies: &[Tally],
    memo: &mut Memo,
    table: &mut CellTable,
    desk: &mut Desk,
) -> Result<(), LeafStop>
    requires ready { IsAtDesk plan.now table.old desk.old }
    requires time { t ≤ MAX_DELAY }
    requires cell { i < length table.old.cells }
    requires tallies { AreTallies (near plan.now) (outs_of table.old) tallies.now }
    requires memo { IsMemo plan.now memo.old.own memo.old.known.items }
    requires some { 0 < length memo.old.known.items }
    ensures cell { GoesByOwn plan.now t i table.old table.new result }
    ensures only { OnlyCell i table.old.cells table.new.cells }
    ensures ready { IsAtDesk plan.now table.new desk.new }
    ensures memo { IsMemo plan.now memo.new.own memo.new.known.items }
{
    anew(plan, i, t, tallies, memo, table, desk)
}

/// A cell takes what its rules give, which may be kept. Out of line, and lent nothing that is made
/// for it, so that nothing is got ready where an answer is kept.
#[inline(never)]
fn anew(
    plan: &Plan,
    i: u32,
    t: Time,
    tallies: &[Tally],
    memo: &mut Memo,
    table: &mut CellTable,
    desk: &mut Desk,
) -> Result<(), LeafStop>
    requires ready { IsAtDesk plan.now table.old desk.old }
    requires time { t ≤ MAX_DELAY }
    requires cell { i < length table.old.cells }
    requires tallies { AreTallies (near plan.now) (outs_of table.old) tallies.now }
    requires memo { IsMemo plan.now memo.old.own memo.old.known.items }
    requires some { 0 < length memo.old.known.items }
    ensures cell { GoesByOwn plan.now t i table.old table.new result }
    ensures only { OnlyCell i table.old.cells table.new.cells }
    ensures ready { IsAtDesk plan.now table.new desk.new }
    ensures memo { IsMemo plan.now memo.new.own memo.new.known.items }
{
    learn(plan, i, t, tallies, memo, table, desk);
    by_own(plan, i, t, tallies, table, desk)
}

/// Where an answer is kept.
#[inline(always)]
fn slot(own: &Value, tally: Tally) -> usize {
    let own = match own {
        Value::Undefined => 7,
        Value::Num(raw) => raw.get().unsigned_abs(),
    };
    let counts = u64::from(tally.ones) * 256 + u64::from(tally.zeros);
    let mixed = own
        .wrapping_mul(0x9E37_79B9_7F4A_7C15)
        .wrapping_add(counts.wrapping_mul(0xC2B2_AE3D_27D4_EB4F));
    (mixed >> 56) as usize
}

/// The answer that is kept there, if it is for this own value and these counts.
#[inline(always)]
fn answer_at<'k>(known: &'k [Known], at: usize, own: &Value, tally: Tally) -> Option<&'k Constant>
    // For each offset and rules of which answers are kept.
    ensures { (n : ℕ) (rules : List Rule) → All (IsAnswer n rules) known.now
        → IfSome result (λ c. AlwaysGive n rules own.now tally c.now) }
{
    if at < known.len() {
        answer_of(&known[at], own, tally)
    } else {
        None
    }
}

#[inline(always)]
fn answer_of<'k>(kept: &'k Known, own: &Value, tally: Tally) -> Option<&'k Constant>
    ensures { (n : ℕ) (rules : List Rule) → IsAnswer n rules kept.now
        → IfSome result (λ c. AlwaysGive n rules own.now tally c.now) }
{
    if is_for(kept, own, tally) {
        made_of(kept)
    } else {
        None
    }
}

/// What is kept in a place.
#[inline(always)]
fn made_of(kept: &Known) -> Option<&Constant>
    ensures { IfSome result (λ c. kept.now.made ≡ Some c.now) }
{
    match &kept.made {
        Some(made) => Some(made),
        None => None,
    }
}

/// Whether an answer is for this own value and these counts.
#[inline(always)]
fn is_for(kept: &Known, own: &Value, tally: Tally) -> bool
    ensures { IsTrue result → (kept.now.own ≡ own.now) × (kept.now.tally ≡ tally) }
{
    let same = kept.own.is_same(own);
    same & are_same(kept.tally, tally)
}

/// Keeps what the rules give here, where the counts are known.
fn learn(
    plan: &Plan,
    i: u32,
    t: Time,
    tallies: &[Tally],
    memo: &mut Memo,
    table: &CellTable,
    desk: &mut Desk,
)
    requires ready { IsAtDesk plan.now table.now desk.old }
    requires time { t ≤ MAX_DELAY }
    requires cell { i < length table.now.cells }
    requires tallies { AreTallies (near plan.now) (outs_of table.now) tallies.now }
    requires memo { IsMemo plan.now memo.old.own memo.old.known.items }
    requires some { 0 < length memo.old.known.items }
    ensures ready { IsAtDesk plan.now table.now desk.new }
    ensures memo { IsMemo plan.now memo.new.own memo.new.known.items }
{
    match tally_of(tallies, i) {
        Some(tally) => learn_at(plan, i, t, tally, memo, table, desk),
        None => {}
    }
}

/// Keeps what the rules give here, where its place is free and it stands in their text. What is
/// kept stays, so that the evaluator is asked twice for at most 256 steps.
fn learn_at(
    plan: &Plan,
    i: u32,
    t: Time,
    tally: Tally,
    memo: &mut Memo,
    table: &CellTable,
    desk: &mut Desk,
)
    requires ready { IsAtDesk plan.now table.now desk.old }
    requires time { t ≤ MAX_DELAY }
    requires cell { i < length table.now.cells }
    requires tally { IsTally tally (outs (sees plan.now t table.now i)) }
    requires memo { IsMemo plan.now memo.old.own memo.old.known.items }
    requires some { 0 < length memo.old.known.items }
    ensures ready { IsAtDesk plan.now table.now desk.new }
    ensures memo { IsMemo plan.now memo.new.own memo.new.known.items }
{
    // For the proof, as in `by_few`.
    let _width = table.width();
    let own = table.emitted(i, 0);
    let at = slot(&own, tally);
    if is_free(&memo.known, at) {
        let rules = codes_at(plan, 0);
        let made = constant_for(plan, rules, i, t, tally, table, desk);
        memo.known[at] = Known { own, tally, made };
    }
}

/// Whether there is such a place, and nothing is kept there.
fn is_free(known: &[Known], at: usize) -> bool
    ensures { IsTrue result → at < length known.now }
{
    if at < known.len() {
        known[at].made.is_none()
    } else {
        false
    }
}

/// What the first true rule gives, where that stands in its text.
fn constant_for(
    plan: &Plan,
    rules: &[RuleCode],
    i: u32,
    t: Time,
    tally: Tally,
    table: &CellTable,
    desk: &mut Desk,
) -> Option<Constant>
    requires ready { IsAtDesk plan.now table.now desk.old }
    requires time { t ≤ MAX_DELAY }
    requires cell { i < length table.now.cells }
    requires depth { All (λ rule. rule_depth rule ≤ desk.old.stack.depth) rules.now }
    requires tally { IsTally tally (outs (sees plan.now t table.now i)) }
    ensures delay { IfSome result (λ c. c.delay ≤ MAX_DELAY) }
    // Over what the cell sees.
    ensures given { IfSome result (λ c.
        Evaluates (outcome_of_rules rules.now (seen_at (sees plan.now t table.now i)
        (cell_at table.now.cells i).variables)) (Ok (c.given, c.delay))
        (cell_at table.now.cells i).variables) }
    ensures ready { IsAtDesk plan.now table.now desk.new }
{
    match evaluate_cell(
        plan,
        rules,
        i,
        t,
        Value::Undefined,
        Some(tally),
        table,
        desk,
    ) {
        Ok((lent, delay)) => constant_in(&lent, delay),
        Err(_) => None,
    }
}

/// What is given with this delay, where it stands in a rule's text.
fn constant_in(lent: &Lent<'_>, delay: Time) -> Option<Constant>
    ensures { IfSome result (IsConstant lent.now delay) }
{
    match lent {
        Lent::Known(known) => Some(Constant {
            given: known.given,
            delay,
        }),
        _ => None,
    }
}
