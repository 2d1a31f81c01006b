// The links of sections, one after another.
ghost use Rattle.std.specs.Prelude.{◌≡◌, ◌∷◌, ◌++◌, [], true, Some, map, slice_get, IfOk, OnOk};
ghost use Rattle.std.specs.List.{filter, filter_map, flat_map};
ghost use Rattle.std.specs.Option.{option_map};
ghost use Rattle.model_text.specs.Keyed.{least_refusal};
ghost use Rattle.model_text.specs.Walk as W;
ghost use Rattle.model_text.specs.Spaces.{space_of};
ghost use Rattle.model_text.specs.Links as L;
ghost use Rattle.model_walk.specs.Shown.{refusal_of};
ghost use Rattle.model_walk.specs.Least.{earlier_refusal};
ghost use Rattle.model_walk.specs.LeastOf.{IsLeastOf};
ghost use Rattle.model_walk.specs.Met.{sections_at};
ghost use Rattle.model_walk.specs.ReadValues.{IsRead};
ghost use Rattle.model_links.specs.Around.{IsSpaceOf};
ghost use Rattle.model_links.specs.Judged.{links_among, found_at};

use crate::ends::link_of;
use crate::face::face_of;
use crate::judge::first_refused;
use crate::limits::is_link;
use cell_grid::Grid;
use indexmap::IndexSet;
use model_tree::Link;
use model_walk::entries::is_group;
use model_walk::least::least;
use model_walk::{PlacedGroup, ReadEntry, ReadSection, ReadSections, Refused};
use quantity::OutOfMemory;
use std::alloc::{AllocError, Global};

/// The links of each section, and the least refusal of all.
#[derive(Drop)]
pub(crate) struct AllLinks {
    pub(crate) links: Vec<Vec<Link>>,
    pub(crate) refused: Option<Refused>,
}

/// The link of an entry, where both ends have a form, with the entry's line.
#[derive(Drop)]
pub(crate) struct FoundLink {
    pub(crate) line: u32,
    pub(crate) link: Option<Link>,
}

/// Reads and judges the links of these sections. Their groups stand in the same order.
pub(crate) fn all_links(
    alloc: Global,
    sections: &ReadSections<'_>,
    met: &[&ReadSection<'_>],
    groups: &[PlacedGroup<'_>],
) -> Result<AllLinks, OutOfMemory>
    requires { map (λ g. g.grid) groups.now ≡ map space_of (filter W.is_group (sections_at met.now)) }
    ensures links { IfOk result (λ all. map (λ list. list.items) all.links.items
        ≡ map L.links_of (sections_at met.now)) }
    ensures refused { IfOk result (λ w. IsLeastOf
        (flat_map (L.of_links sections.now) (sections_at met.now)) w.refused) }
{
    let mut all = AllLinks {
        links: Vec::with_capacity(alloc, met.len())?,
        refused: None,
    };
    let mut next: usize = 0;
    for section in met {
        add_section(
            alloc,
            sections,
            section,
            grid_of(section, groups, next),
            &mut all,
        )?;
        next += usize::from(is_group(section.section()));
    }
    Ok(all)
}

/// Reads and judges the links of one more section.
fn add_section(
    alloc: Global,
    sections: &ReadSections<'_>,
    section: &ReadSection<'_>,
    grid: Option<&Grid>,
    all: &mut AllLinks,
) -> Result<(), OutOfMemory>
    requires { IsSpaceOf section.now grid }
    ensures links { OnOk result (map (λ list. list.items) all.new.links.items
        ≡ map (λ list. list.items) all.old.links.items ++ L.links_of section.now ∷ []) }
    ensures refused { OnOk result (option_map refusal_of all.new.refused
        ≡ earlier_refusal (option_map refusal_of all.old.refused)
        (least_refusal (L.of_links sections.now section.now))) }
{
    let found = found_links(alloc, section, grid)?;
    let refused = refused_of(alloc, sections, section, grid, &found)?;
    let links = formed(alloc, found)?;
    all.refused = least(all.refused, refused);
    all.links.push(links).map_err(AllocError::from)?;
    Ok(())
}

/// The grid of a group's section, for which the next group is; None for that of a coupled
/// component.
fn grid_of<'a>(
    section: &ReadSection<'_>,
    groups: &'a [PlacedGroup<'_>],
    next: usize,
) -> Option<&'a Grid>
    requires { W.is_group section.now ≡ true
        → option_map (λ g. g.grid) (slice_get groups.now next) ≡ Some (space_of section.now) }
    ensures { IsSpaceOf section.now result }
{
    if !is_group(section.section()) {
        return None;
    }
    match groups.get(next) {
        None => None,
        Some(group) => Some(&group.grid),
    }
}

/// The least refusal of the links of a section, all of which these are.
fn refused_of(
    alloc: Global,
    sections: &ReadSections<'_>,
    section: &ReadSection<'_>,
    grid: Option<&Grid>,
    found: &[FoundLink],
) -> Result<Option<Refused>, OutOfMemory>
    requires space { IsSpaceOf section.now grid }
    requires found { found.now ≡ map (found_at section.now) (L.link_entries section.now) }
    ensures { IfOk result (IsLeastOf (L.of_links sections.now section.now)) }
{
    let face = face_of(alloc, sections, section, grid)?;
    let mut before = IndexSet::new(alloc);
    first_refused(&face, &mut before, found)
}

/// The links of a section's entries, in their order.
fn found_links(
    alloc: Global,
    section: &ReadSection<'_>,
    grid: Option<&Grid>,
) -> Result<Vec<FoundLink>, OutOfMemory>
    requires { IsSpaceOf section.now grid }
    ensures { let s = section.now in
        IfOk result (λ found. found.items ≡ map (found_at s) (L.link_entries s)) }
{
    let mut found = Vec::new(alloc);
    for read in section.entries() {
        add_entry(alloc, section, grid, read, &mut found)?;
    }
    Ok(found)
}

/// Reads the link of an entry, where it is one.
fn add_entry(
    alloc: Global,
    section: &ReadSection<'_>,
    grid: Option<&Grid>,
    read: &ReadEntry<'_>,
    found: &mut Vec<FoundLink>,
) -> Result<(), OutOfMemory>
    requires space { IsSpaceOf section.now grid }
    requires read { IsRead section.now.name read.now }
    ensures { OnOk result (found.new.items
        ≡ found.old.items ++ map (found_at section.now) (links_among (read.now.entry.now ∷ []))) }
{
    if !is_link(read.entry) {
        return Ok(());
    }
    let link = link_of(alloc, section.section(), grid, read)?;
    found
        .push(FoundLink {
            line: read.entry.line,
            link,
        })
        .map_err(AllocError::from)?;
    Ok(())
}

/// The links whose ends have a form.
fn formed(alloc: Global, found: Vec<FoundLink>) -> Result<Vec<Link>, OutOfMemory>
    ensures { IfOk result (λ links. links.items ≡ filter_map (λ one. one.link) found.items) }
{
    Ok(found.into_iter().filter_map(|one| one.link).collect(alloc)?)
}
