// Components, from what the walk met.
ghost use Rattle.std.specs.Prelude.{◌≡◌, ◌∷◌, [], false, IfOk};
ghost use Rattle.model_tree.specs.declared.component.Component.TheVariants.{Coupled as in_tree};
ghost use Rattle.model_text.specs.Walk as W;
ghost use Rattle.model_walk.specs.MetTree.{met_with};
ghost use Rattle.model_build.specs.Ahead.{BuildsSection, BuildsItems, BuildsItem, Boxes, IsMade};
ghost use Rattle.model_build.specs.Ahead.{SectionAhead, ItemsAhead, ItemAhead};

use crate::cells::{next_group, section_name};
use crate::parts::{Parts, next_atomic, next_links};
use model_text::building::components_are_made_item_by_item;
use model_tree::{Component, Coupled, Link};
use model_walk::entries::is_group;
use model_walk::names::names;
use model_walk::{MetComponent, MetSection, ReadSection};
use quantity::OutOfMemory;
use std::alloc::{AllocError, Global};

/// The coupled component of the section top.
pub(crate) fn top_component(
    alloc: Global,
    top: &MetSection<'_, '_>,
    parts: &mut Parts<'_>,
) -> Result<Coupled, OutOfMemory>
    requires no_group { W.is_group top.now.section.now ≡ false }
    requires ahead { SectionAhead (met_with top.now) parts.old }
    ensures built { IfOk result
        (λ c. BuildsSection (met_with top.now) parts.old (in_tree c) parts.new) }
    ensures boxes { IfOk result (λ c. Boxes parts.old (in_tree c ∷ []) parts.new) }
{
    components_are_made_item_by_item();
    let links = next_links(parts);
    let children = components(alloc, &top.components, parts)?;
    let made = made_coupled(alloc, top.section, children, links)?;
    Ok(made)
}

/// The components that stand in a section.
#[cycle(building)]
fn components(
    alloc: Global,
    met: &[MetComponent<'_, '_>],
    parts: &mut Parts<'_>,
) -> Result<Vec<Component>, OutOfMemory>
    requires { ItemsAhead met.now parts.old }
    ensures built { IfOk result (λ all. BuildsItems met.now parts.old all.items parts.new) }
    ensures boxes { IfOk result (λ all. Boxes parts.old all.items parts.new) }
{
    let mut all = Vec::with_capacity(alloc, met.len())?;
    for component in met {
        let made = made_component(alloc, component, parts)?;
        all.push(made).map_err(AllocError::from)?;
    }
    Ok(all)
}

/// The component that the walk met so.
#[cycle(building)]
fn made_component(
    alloc: Global,
    met: &MetComponent<'_, '_>,
    parts: &mut Parts<'_>,
) -> Result<Component, OutOfMemory>
    requires { ItemAhead met.now parts.old }
    ensures built { IfOk result (λ c. BuildsItem met.now parts.old c parts.new) }
    ensures boxes { IfOk result (λ c. Boxes parts.old (c ∷ []) parts.new) }
{
    components_are_made_item_by_item();
    let MetComponent::Section(met) = met else {
        return Ok(Component::Atomic(next_atomic(parts)));
    };
    if is_group(met.section.section()) {
        let group = next_group(alloc, parts)?;
        return Ok(Component::Cells(group));
    }
    let links = next_links(parts);
    let children = components(alloc, &met.components, parts)?;
    let made = made_coupled(alloc, met.section, children, links)?;
    Ok(Component::Coupled(made))
}

/// A coupled component of the name and the ports of a section.
fn made_coupled(
    alloc: Global,
    section: &ReadSection<'_>,
    children: Vec<Component>,
    links: Vec<Link>,
) -> Result<Coupled, OutOfMemory>
    ensures { IfOk result (λ c. IsMade c section.now children.items links.items) }
{
    let name = section_name(alloc, section.section())?;
    let ins = names(alloc, section, b"in")?;
    let outs = names(alloc, section, b"out")?;
    Ok(Coupled {
        name,
        ins,
        outs,
        children,
        links,
    })
}
