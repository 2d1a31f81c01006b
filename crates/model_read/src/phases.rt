// The phases up to the limit of links, in their order.
ghost use Rattle.std.specs.Prelude.{◌≡◌, ◌∷◌, ◌++◌, [], None, Some, not, IsTrue, IfOk, OnOk, map};
ghost use Rattle.std.specs.List.{list_all};
ghost use Rattle.std.specs.Option.{option_map};
ghost use Rattle.model_text.specs.Walk as W;
ghost use Rattle.model_text.specs.Keys.{keys_refused};
ghost use Rattle.model_text.specs.Spaces.{cells_refused};
ghost use Rattle.model_text.specs.Links.{links_of};
ghost use Rattle.model_text.specs.Accepted.{first_of};
ghost use Rattle.model_text.specs.BuildLaws.{PassedLinks};
ghost use Rattle.model_walk.specs.Shown.{refusal_of};
ghost use Rattle.model_walk.specs.Met.{IsWalk};
ghost use Rattle.model_walk.specs.Placed.{plain_group, placed_of, values_before_files};
ghost use Rattle.model_build.specs.Settled.{classes_of, name_and_class, named_item};
ghost use Rattle.model_walk.specs.Sets.{sets_shown, sets_of};
ghost use Rattle.model_leaves.specs.Leaves.{Settings};
ghost use Rattle.model_tree.specs.declared.component.Component.TheVariants.{Coupled as in_tree};
ghost use Rattle.model_build.specs.Built.{PassesSome, HasSettings, IsBuilt};
ghost use Rattle.model_read.specs.Spaces as spaces;
ghost use Rattle.model_read.specs.Order.{up_to_limit};
ghost use Rattle.model_build.specs.Boxes.{settings_of_stock, atomics_in, HasBoxes};
ghost use Rattle.model_read.specs.Stops.{RefusesAs};

use crate::group_space::GroupSpace;
use crate::stages::{Parts, met_sections, read_links, read_parts};
use atomic_face::{AtomicModel, Stock};
use cell_grid::Initial;
use ma_lines::Sections;
use model_build::build;
use model_tree::{Coupled, Link};
use model_walk::{PlacedGroup, ReadSections, Refused, Stop, Walked};
use quantity::OutOfMemory;
use std::alloc::Global;

/// What the phases up to the limit of links give: the component top, and the groups with the values
/// that their files are laid on.
#[derive(Drop)]
pub(crate) struct Judged<'a> {
    pub(crate) top: Coupled,
    pub(crate) groups: Vec<GroupSpace<'a>>,
    pub(crate) values: Vec<Initial>,
}

/// Goes on unless there is a refusal.
pub(crate) fn unless(why: Option<Refused>) -> Result<(), Stop>
    ensures none { IfOk result (λ u. option_map refusal_of why ≡ None) }
    ensures some { (r : _) → result ≡ Err (Stop.Refused r)
        → option_map refusal_of why ≡ Some (refusal_of r) }
    ensures never { (result ≡ Err Stop.Memory) → ⊥ }
{
    match why {
        None => Ok(()),
        Some(why) => Err(Stop::Refused(why)),
    }
}

/// The sections and spaces of groups.
fn group_spaces<'a>(
    alloc: Global,
    groups: &[PlacedGroup<'a>],
) -> Result<Vec<GroupSpace<'a>>, OutOfMemory>
    ensures { IfOk result
        (λ found. map spaces.kept_space found.items ≡ map spaces.placed_space groups.now) }
{
    let mut found = Vec::new(alloc);
    for group in groups {
        add_space(group, &mut found)?;
    }
    Ok(found)
}

fn add_space<'a>(
    group: &PlacedGroup<'a>,
    found: &mut Vec<GroupSpace<'a>>,
) -> Result<(), OutOfMemory>
    ensures { OnOk result (map spaces.kept_space found.new.items
        ≡ map spaces.kept_space found.old.items ++ spaces.placed_space group.now ∷ []) }
{
    let space = GroupSpace {
        section: group.section,
        grid: group.grid,
    };
    let Ok(()) = found.push(space) else {
        return Err(OutOfMemory);
    };
    Ok(())
}

/// The component top, and beside it the groups and their values.
fn built<'a>(
    alloc: Global,
    sections: &ReadSections<'_>,
    walked: &Walked<'_, '_>,
    parts: Parts<'a>,
    links: Vec<Vec<Link>>,
) -> Result<Judged<'a>, OutOfMemory>
    requires passed { PassesSome sections.now }
    requires walk { IsWalk sections.now walked.now }
    requires groups { map plain_group parts.groups.items ≡ map placed_of (W.groups sections.now) }
    requires values { parts.values.items ≡ map values_before_files (W.groups sections.now) }
    requires rules { map sets_shown parts.rules.items
        ≡ map (sets_of sections.now) (W.groups sections.now) }
    requires atomics { map name_and_class parts.atomics.items
        ≡ map named_item (W.atomics sections.now) }
    requires links { map (λ list. list.items) links.items
        ≡ map links_of (W.reached_sections sections.now) }
    ensures tree { IfOk result (λ r. (settings : Settings)
        → HasSettings sections.now settings parts.entry.atomics.items
        → IsBuilt sections.now settings r.top) }
    ensures atomics { IfOk result (λ r. atomics_in (in_tree r.top) ≡ parts.entry.atomics.items) }
    ensures groups { IfOk result (λ r. map spaces.kept_space r.groups.items
        ≡ map spaces.said_space (W.groups sections.now)) }
    ensures values { IfOk result
        (λ r. r.values.items ≡ map values_before_files (W.groups sections.now)) }
{
    let Parts {
        groups: placed,
        values,
        atomics,
        rules,
    } = parts;
    let groups = group_spaces(alloc, &placed)?;
    let top = build(
        alloc,
        sections.sections(),
        walked,
        placed,
        rules,
        atomics,
        links,
    )?;
    Ok(Judged {
        top,
        groups,
        values,
    })
}

/// The phases up to the limit of links. Refused is the refusal of the first that refuses; boxes of
/// the stock may be taken then, and where there is no memory.
pub(crate) fn judge<'a, M: AtomicModel>(
    alloc: Global,
    sections: &'a Sections,
    stock: &mut Stock<M>,
) -> Result<Judged<'a>, Stop>
    requires free { IsTrue (list_all (λ s. not s.taken) stock.old) }
    ensures passed { IfOk result (λ r. PassedLinks (classes_of stock.old) sections.now) }
    ensures tree { IfOk result (λ r. IsBuilt sections.now (settings_of_stock stock.new) r.top) }
    ensures boxes { IfOk result (λ r. HasBoxes stock.new r.top) }
    ensures groups { IfOk result (λ r. map spaces.kept_space r.groups.items
        ≡ map spaces.said_space (W.groups sections.now)) }
    ensures values { IfOk result
        (λ r. r.values.items ≡ map values_before_files (W.groups sections.now)) }
    ensures refused { RefusesAs
        (first_of (up_to_limit (classes_of stock.old) sections.now)) result }
{
    let read = ReadSections::read(alloc, sections)?;
    judge_read(alloc, &read, stock)
}

/// The same over what the entries of the sections say.
fn judge_read<'a, M: AtomicModel>(
    alloc: Global,
    sections: &ReadSections<'a>,
    stock: &mut Stock<M>,
) -> Result<Judged<'a>, Stop>
    requires free { IsTrue (list_all (λ s. not s.taken) stock.old) }
    ensures passed { IfOk result (λ r. PassedLinks (classes_of stock.old) sections.now) }
    ensures tree { IfOk result (λ r. IsBuilt sections.now (settings_of_stock stock.new) r.top) }
    ensures boxes { IfOk result (λ r. HasBoxes stock.new r.top) }
    ensures groups { IfOk result (λ r. map spaces.kept_space r.groups.items
        ≡ map spaces.said_space (W.groups sections.now)) }
    ensures values { IfOk result
        (λ r. r.values.items ≡ map values_before_files (W.groups sections.now)) }
    ensures refused { RefusesAs
        (first_of (up_to_limit (classes_of stock.old) sections.now)) result }
{
    let walked = met_sections(alloc, sections)?;
    judge_met(alloc, sections, &walked, stock)
}

/// The phases behind the walk, its keys and the number of cells, over what the walk met.
fn judge_met<'a, M: AtomicModel>(
    alloc: Global,
    sections: &ReadSections<'a>,
    walked: &Walked<'_, 'a>,
    stock: &mut Stock<M>,
) -> Result<Judged<'a>, Stop>
    requires walk { IsWalk sections.now walked.now }
    requires keys { keys_refused sections.now ≡ None }
    requires cells { cells_refused sections.now ≡ None }
    requires free { IsTrue (list_all (λ s. not s.taken) stock.old) }
    ensures passed { IfOk result (λ r. PassedLinks (classes_of stock.old) sections.now) }
    ensures tree { IfOk result (λ r. IsBuilt sections.now (settings_of_stock stock.new) r.top) }
    ensures boxes { IfOk result (λ r. HasBoxes stock.new r.top) }
    ensures groups { IfOk result (λ r. map spaces.kept_space r.groups.items
        ≡ map spaces.said_space (W.groups sections.now)) }
    ensures values { IfOk result
        (λ r. r.values.items ≡ map values_before_files (W.groups sections.now)) }
    ensures refused { RefusesAs
        (first_of (up_to_limit (classes_of stock.old) sections.now)) result }
{
    let parts = read_parts(alloc, sections, walked, stock)?;
    let links = read_links(alloc, sections, walked, &parts.groups)?;
    match built(alloc, sections, walked, parts, links) {
        Ok(judged) => Ok(judged),
        Err(OutOfMemory) => Err(Stop::Memory),
    }
}
