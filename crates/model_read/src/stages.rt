// The phases up to the limit of links, in three stages.
ghost use Rattle.std.specs.Prelude.{◌≡◌, ◌∷◌, [], None, not, IsTrue, IfOk, OnOk, map, slice_get};
ghost use Rattle.std.specs.List.{list_all};
ghost use Rattle.model_text.specs.Accepted.{first_of};
ghost use Rattle.model_text.specs.Walk as W;
ghost use Rattle.model_text.specs.Keys as K;
ghost use Rattle.model_text.specs.Spaces as S;
ghost use Rattle.model_text.specs.Stock.{stock_refused};
ghost use Rattle.model_text.specs.Rules.{rules_refused};
ghost use Rattle.model_text.specs.Links as L;
ghost use Rattle.model_text.specs.ModelOf as O;
ghost use Rattle.model_walk.specs.Met.{IsWalk};
ghost use Rattle.model_walk.specs.Placed.{plain_group, placed_of, values_before_files};
ghost use Rattle.model_build.specs.Settled.{classes_of, box_of_item, name_and_class, named_item, are_apart};
ghost use Rattle.model_walk.specs.Sets.{sets_shown, sets_of};
ghost use Rattle.model_read.specs.Stops.{RefusesAs};

use crate::phases::unless;
use atomic_face::{AtomicModel, Stock};
use cell_grid::Initial;
use model_build::atomics;
use model_keys::keys_refused;
use model_links::{link_limit_refused, links};
use model_rules::rules;
use model_spaces::{Spaces, cells_refused, spaces};
use model_tree::{Atomic, Link};
use model_walk::{GroupRules, PlacedGroup, ReadSections, Stop, Walked, walk};
use std::alloc::Global;

// ---- the walk, keys and the number of cells

/// What the walk meets, where its keys are right and its cells not too many.
pub(crate) fn met_sections<'b, 'a>(
    alloc: Global,
    sections: &'b ReadSections<'a>,
) -> Result<Walked<'b, 'a>, Stop>
    ensures walk { IfOk result (IsWalk sections.now) }
    ensures keys { OnOk result (K.keys_refused sections.now ≡ None) }
    ensures cells { OnOk result (S.cells_refused sections.now ≡ None) }
    ensures refused { let ss = sections.now in
        RefusesAs (first_of (W.top_refused ss ∷ W.tree_refused ss ∷ K.keys_refused ss
        ∷ S.cells_refused ss ∷ [])) result }
{
    let walked = walk(alloc, sections)?;
    test_keys(alloc, sections, &walked)?;
    test_cells(alloc, sections, &walked)?;
    Ok(walked)
}

/// Goes on unless a key is refused.
fn test_keys(
    alloc: Global,
    sections: &ReadSections<'_>,
    walked: &Walked<'_, '_>,
) -> Result<(), Stop>
    requires { IsWalk sections.now walked.now }
    ensures passed { OnOk result (K.keys_refused sections.now ≡ None) }
    ensures refused { RefusesAs (K.keys_refused sections.now) result }
{
    let why = keys_refused(alloc, sections.sections(), walked)?;
    unless(why)
}

/// Goes on unless there are too many cells.
fn test_cells(
    alloc: Global,
    sections: &ReadSections<'_>,
    walked: &Walked<'_, '_>,
) -> Result<(), Stop>
    requires walk { IsWalk sections.now walked.now }
    requires keys { K.keys_refused sections.now ≡ None }
    ensures passed { OnOk result (S.cells_refused sections.now ≡ None) }
    ensures refused { RefusesAs (S.cells_refused sections.now) result }
{
    let why = cells_refused(alloc, sections.sections(), walked)?;
    unless(why)
}

// ---- spaces, the stock and rules

/// What the sections of groups and of atomic components give.
#[derive(Drop)]
pub(crate) struct Parts<'a> {
    pub(crate) groups: Vec<PlacedGroup<'a>>,
    pub(crate) values: Vec<Initial>,
    pub(crate) atomics: Vec<Atomic>,
    pub(crate) rules: Vec<GroupRules>,
}

/// Reads spaces, takes the boxes of atomic components, and reads rules. Where a phase refuses, or
/// there is no memory, boxes may be taken.
pub(crate) fn read_parts<'a, M: AtomicModel>(
    alloc: Global,
    sections: &ReadSections<'a>,
    walked: &Walked<'_, 'a>,
    stock: &mut Stock<M>,
) -> Result<Parts<'a>, Stop>
    requires walk { IsWalk sections.now walked.now }
    requires keys { K.keys_refused sections.now ≡ None }
    requires cells { S.cells_refused sections.now ≡ None }
    requires free { IsTrue (list_all (λ s. not s.taken) stock.old) }

    // None of these phases refuses, or the first of them that does.
    ensures spaces { OnOk result (S.spaces_refused sections.now ≡ None) }
    ensures stock { OnOk result (stock_refused (classes_of stock.old) sections.now ≡ None) }
    ensures rules { OnOk result (rules_refused sections.now ≡ None) }
    ensures refused { let ss = sections.now in
        RefusesAs (first_of (S.spaces_refused ss ∷ stock_refused (classes_of stock.old) ss
        ∷ rules_refused ss ∷ [])) result }

    ensures groups { IfOk result (λ p. map plain_group p.groups.items
        ≡ map placed_of (W.groups sections.now)) }
    ensures values { IfOk result (λ p. p.values.items
        ≡ map values_before_files (W.groups sections.now)) }
    ensures sets { IfOk result (λ p. map sets_shown p.rules.items
        ≡ map (sets_of sections.now) (W.groups sections.now)) }
    ensures named { IfOk result (λ p. map name_and_class p.atomics.items
        ≡ map named_item (W.atomics sections.now)) }
    ensures boxes { IfOk result (λ p. map (λ a. slice_get stock.new a.at.0) p.atomics.items
        ≡ map (box_of_item sections.now) (W.atomics sections.now)) }
    ensures apart { IfOk result (λ p. IsTrue (are_apart (map (λ a. a.at.0) p.atomics.items))) }
{
    let Spaces { groups, values } = spaces(alloc, sections.sections(), walked)?;
    let (atomics, rules) = atomics_and_rules(alloc, sections, walked, &groups, stock)?;
    Ok(Parts {
        groups,
        values,
        atomics,
        rules,
    })
}

/// Takes the boxes of atomic components, and then reads the rules of the groups.
fn atomics_and_rules<M: AtomicModel>(
    alloc: Global,
    sections: &ReadSections<'_>,
    walked: &Walked<'_, '_>,
    groups: &[PlacedGroup<'_>],
    stock: &mut Stock<M>,
) -> Result<(Vec<Atomic>, Vec<GroupRules>), Stop>
    requires walk { IsWalk sections.now walked.now }
    requires keys { K.keys_refused sections.now ≡ None }
    requires groups { map plain_group groups.now ≡ map placed_of (W.groups sections.now) }
    requires free { IsTrue (list_all (λ s. not s.taken) stock.old) }
    ensures stock { OnOk result (stock_refused (classes_of stock.old) sections.now ≡ None) }
    ensures rules { OnOk result (rules_refused sections.now ≡ None) }
    ensures refused { let ss = sections.now in
        RefusesAs (first_of (stock_refused (classes_of stock.old) ss ∷ rules_refused ss ∷ []))
        result }
    ensures sets { IfOk result (λ p. map sets_shown p.1.items
        ≡ map (sets_of sections.now) (W.groups sections.now)) }
    ensures named { IfOk result (λ p. map name_and_class p.0.items
        ≡ map named_item (W.atomics sections.now)) }
    ensures boxes { IfOk result (λ p. map (λ a. slice_get stock.new a.at.0) p.0.items
        ≡ map (box_of_item sections.now) (W.atomics sections.now)) }
    ensures apart { IfOk result (λ p. IsTrue (are_apart (map (λ a. a.at.0) p.0.items))) }
{
    let atomics = atomics(alloc, sections.sections(), walked, stock)?;
    let rules = rules(alloc, sections.sections(), groups)?;
    Ok((atomics, rules))
}

// ---- links and their limit

/// The links of each section that the walk met, where they are not too many.
pub(crate) fn read_links(
    alloc: Global,
    sections: &ReadSections<'_>,
    walked: &Walked<'_, '_>,
    groups: &[PlacedGroup<'_>],
) -> Result<Vec<Vec<Link>>, Stop>
    requires walk { IsWalk sections.now walked.now }
    requires keys { K.keys_refused sections.now ≡ None }
    requires spaces { S.spaces_refused sections.now ≡ None }
    requires groups { map plain_group groups.now ≡ map placed_of (W.groups sections.now) }
    ensures right { OnOk result (L.links_refused sections.now ≡ None) }
    ensures few { OnOk result (O.link_limit_refused sections.now ≡ None) }
    ensures links { IfOk result
        (λ links. map (λ list. list.items) links.items
        ≡ map L.links_of (W.reached_sections sections.now)) }
    ensures refused { RefusesAs (first_of
        (L.links_refused sections.now ∷ O.link_limit_refused sections.now ∷ [])) result }
{
    let links = links(alloc, sections, walked, groups)?;
    test_link_limit(alloc, sections, walked)?;
    Ok(links)
}

/// Goes on unless links, or ports of top, are too many.
fn test_link_limit(
    alloc: Global,
    sections: &ReadSections<'_>,
    walked: &Walked<'_, '_>,
) -> Result<(), Stop>
    requires { IsWalk sections.now walked.now }
    ensures passed { OnOk result (O.link_limit_refused sections.now ≡ None) }
    ensures refused { RefusesAs (O.link_limit_refused sections.now) result }
{
    let why = link_limit_refused(alloc, sections, walked)?;
    unless(why)
}
