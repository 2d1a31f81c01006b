//! The tree of a model, put together from what the phases read; the boxes of its atomic components;
//! and laws of the values that are laid on it (`Model::lay` of `model_tree`).
//!
//! - `build` takes the sections, the walk, and in its order the groups of `model_spaces`, their
//!   rules of `model_rules`, the atomic components and the links of `model_links`; and gives the
//!   component top. It maps over the tree of what the walk met (`MetSection`), and takes each part
//!   from the front of its list (`Parts`). The cells have `?`, until `Model::lay` gives them values.
//! - `atomics` (`stock`) is the phase of atomic components: it takes the sections, the walk and a
//!   `Stock` of `atomic_face`, and gives the atomic components in declared order, each with the
//!   number of its box, which its parameters settle; or the first that is refused: it has no class,
//!   no box is left, or a parameter is off its form.
//! - Definitions: `specs/Built.antt` (`IsBuilt`), over `model_text/specs/Trees.antt`. Of atomic
//!   components: `model_text/specs/Stock.antt` (`stock_refused`); the box that one has then:
//!   `specs/Settled.antt`.
//! - Laws (`laws`), by the statements of `specs/Laws.antt`: no port, link or path changes where
//!   values are laid; a model is sound with any values that fit its groups; where the components of
//!   a tree have boxes at their start (`specs/Boxes.antt`), so have the leaves of its model.
#![tactic(auto)]

ghost use Rattle.std.specs.Prelude.{◌≡◌, map, IfOk};
ghost use Rattle.model_leaves.specs.Leaves.{Settings};
ghost use Rattle.model_text.specs.Walk as W;
ghost use Rattle.model_text.specs.Links.{links_of};
ghost use Rattle.model_walk.specs.Met.{IsWalk};
ghost use Rattle.model_walk.specs.Placed.{plain_group, placed_of};
ghost use Rattle.model_build.specs.Settled.{name_and_class, named_item};
ghost use Rattle.model_walk.specs.Sets.{sets_shown, sets_of};
ghost use Rattle.model_tree.specs.declared.component.Component.TheVariants.{Coupled as in_tree};
ghost use Rattle.model_build.specs.Boxes.{atomics_in};
ghost use Rattle.model_build.specs.Built.{PassesSome, HasSettings, IsBuilt};

mod cells;
mod component;
mod component_box;
pub mod laws;
mod params;
mod parts;
mod stock;

use crate::component::top_component;
use crate::parts::Parts;
use ma_lines::Sections;
use model_text::building::components_are_made_item_by_item;
use model_tree::{Atomic, Coupled, Link};
use model_walk::{GroupRules, PlacedGroup, Walked};
use quantity::OutOfMemory;
use std::alloc::Global;
pub use stock::atomics;

/// The component top of sections that pass the phases up to the limit of links. Its groups have `?`
/// in each cell; they get their values when the files are read. It maps over the tree of what the
/// walk met, and takes groups, rules, atomic components and links from the front of what the phases
/// read.
pub fn build(
    alloc: Global,
    sections: &Sections,
    walked: &Walked<'_, '_>,
    groups: Vec<PlacedGroup<'_>>,
    rules: Vec<GroupRules>,
    atomics: Vec<Atomic>,
    links: Vec<Vec<Link>>,
) -> Result<Coupled, OutOfMemory>
    requires passed { PassesSome sections.now }
    requires walk { IsWalk sections.now walked.now }
    requires groups { map plain_group groups.items ≡ map placed_of (W.groups sections.now) }
    requires rules { map sets_shown rules.items
        ≡ map (sets_of sections.now) (W.groups sections.now) }
    requires atomics { map name_and_class atomics.items ≡ map named_item (W.atomics sections.now) }
    requires links { map (λ list. list.items) links.items
        ≡ map links_of (W.reached_sections sections.now) }
    ensures tree { IfOk result (λ top. (settings : Settings)
        → HasSettings sections.now settings atomics.items → IsBuilt sections.now settings top) }
    ensures atomics { IfOk result (λ top. atomics_in (in_tree top) ≡ atomics.items) }
{
    // For the proof: only the clauses speak of it.
    let _sections = sections;
    components_are_made_item_by_item();
    let groups = groups.into_iter();
    let rules = rules.into_iter();
    let atomics = atomics.into_iter();
    let links = links.into_iter();
    let mut parts = Parts {
        groups,
        rules,
        atomics,
        links,
    };
    let top = top_component(alloc, &walked.top, &mut parts)?;
    Ok(top)
}
