// What a run begins with.
ghost use Rattle.std.specs.Prelude.{◌≡◌, ◌+◌, ◌<◌, ◌≤◌, ◌^◌, None, IfOk, IsTrue};
ghost use Rattle.std.specs.Option.{is_some};
ghost use Rattle.model_tree.specs.Tree.{leaf_count};
ghost use Rattle.model_leaves.specs.Leaves.{OfTree};
ghost use Rattle.run_model.specs.Fitting.{FitsTree};
ghost use Rattle.run_model.specs.Run.{most_cycles as most};
ghost use Rattle.answer_model.specs.Visits.{state_visits};
ghost use Rattle.run_leaves.specs.Standing.{tree_in};
ghost use Rattle.asked_words.specs.Shown.{asked_of, source_of};
ghost use Rattle.run_loop.specs.Groups.{IsFoundIn, CanShow};
ghost use Rattle.run_loop.specs.Begins.{CountsNone, IsDrawnAtStart, counts_at_start};

use crate::counted::Counted;
use crate::drawn::Drawn;
use crate::going::Going;
use crate::shown::show_emitted;
use crate::start::drawn_at_start;
use crate::teller::StateTeller;
use asked_words::{Asked, GroupAt, Source};
use cell_engine::Steps;
use model_leaves::Model;
use quantity::{OutOfMemory, Time};
use run_leaves::Cycles;
use saved_runs::accepted::groups_stand;
use std::alloc::Global;
use std::sync::ledger::Ledger;
use text_forms::Records;

/// Frames of which nothing is drawn yet, with what the cells had emitted where the run goes on from
/// a saved state; and nothing counted. Those cells take one visit each.
pub(crate) fn begin<C: Cycles<L>, T: StateTeller<C, L>, L: Ledger>(
    alloc: Global,
    asked: &Asked<'_>,
    group: Option<GroupAt>,
    run: &C,
    teller: &T,
    steps: &mut Steps<L>,
) -> Result<Going, OutOfMemory>
    requires goes { (C.standing run.now).stopped ≡ None }
    requires unserved { (IsTrue (is_some asked.now.given.state) → C.marking run.now ≡ None) }
    requires fits { let s = C.standing run.now in FitsTree (tree_in s) s.state.leaf_states }
    requires few { leaf_count (tree_in (C.standing run.now)) < 2 ^ 32 }
    requires found { IsFoundIn (C.standing run.now).model (asked_of asked.now).frames group }
    requires shows { CanShow (tree_in (C.standing run.now)) (asked_of asked.now).frames }
    ensures drawn { IfOk result
        (λ going. IsDrawnAtStart asked.now (C.standing run.now) going.drawn) }
    ensures counted { IfOk result
        (CountsNone (asked_of asked.now) (tree_in (C.standing run.now))) }
    ensures visits { steps.new ≤ steps.old
        + state_visits (asked_of asked.now).state (tree_in (C.standing run.now)) }
{
    let drawn = drawn_before_run(alloc, asked, group, run, teller, steps)?;
    let counted = counted_at_start(alloc, &asked.source, run.model())?;
    Ok(Going {
        drawn,
        counted,
        cycles: 0,
        records: Records::none(alloc),
        piece: Vec::new(alloc),
    })
}

/// The frames of which nothing is drawn yet.
fn drawn_before_run<C: Cycles<L>, T: StateTeller<C, L>, L: Ledger>(
    alloc: Global,
    asked: &Asked<'_>,
    group: Option<GroupAt>,
    run: &C,
    teller: &T,
    steps: &mut Steps<L>,
) -> Result<Option<Drawn>, OutOfMemory>
    requires goes { (C.standing run.now).stopped ≡ None }
    requires unserved { (IsTrue (is_some asked.now.given.state) → C.marking run.now ≡ None) }
    requires fits { let s = C.standing run.now in FitsTree (tree_in s) s.state.leaf_states }
    requires few { leaf_count (tree_in (C.standing run.now)) < 2 ^ 32 }
    requires found { IsFoundIn (C.standing run.now).model (asked_of asked.now).frames group }
    requires shows { CanShow (tree_in (C.standing run.now)) (asked_of asked.now).frames }
    ensures drawn { IfOk result (λ drawn. IsDrawnAtStart asked.now (C.standing run.now) drawn) }
    ensures visits { steps.new ≤ steps.old
        + state_visits (asked_of asked.now).state (tree_in (C.standing run.now)) }
{
    groups_stand();
    let mut drawn = drawn_at_start(alloc, run.model(), asked, group)?;
    if asked.given.state.is_none() {
        return Ok(drawn);
    }
    show_emitted(run, teller, &mut drawn, steps)?;
    Ok(drawn)
}

/// Counts for the last line, where the model is made.
fn counted_at_start(
    alloc: Global,
    source: &Source<'_>,
    model: &Model,
) -> Result<Option<Counted>, OutOfMemory>
    ensures { IfOk result (λ counted. OfTree model.now
        (λ tree. counted ≡ counts_at_start tree (source_of source.now))) }
{
    let Source::Made(_) = source else {
        return Ok(None);
    };
    let counted = Counted::new(alloc, model.leaves())?;
    Ok(Some(counted))
}

/// The most cycles that a run up to this end may have: as many as the limit at each instant, and
/// there is an instant each millisecond from 0 on.
pub(crate) fn most_cycles(end: Time, limit: u32) -> u64
    ensures value { result ≡ most end limit }
    ensures bounded { result < 2 ^ 63 }
{
    (u64::from(end.ms()) + 1) * u64::from(limit)
}
