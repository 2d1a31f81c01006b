//! The phase of links: the links of each section, read, and judged in their order.
//!
//! - `links` takes the sections, the walk and the groups of `model_spaces`, and gives the links of
//!   each section that the walk met; or the least refusal. `link_limit_refused` gives the refusal
//!   of too many links, or of too many inputs or outputs of top.
//! - `link_of` (`ends`) takes what was read of an entry of a section, and gives its `Link`, or none
//!   where it hasn't two ends of the right form. `face_of` (`face`) gives the `Face` of a section:
//!   which ends are sources and which targets there, and which cells may be named.
//! - `LentEnd`, `LentLink` and their calls (`lent`) look ends and links up by names that stay where
//!   they stand.
//! - Definitions: `model_text/specs/Links.antt` (`link_of`, `face_of`, `links_refused`,
//!   `links_of`), and `link_limit_refused` of `ModelOf.antt` there; which links may stand:
//!   `model_tree/specs/Faces.antt`.
#![tactic(auto)]

ghost use Rattle.std.specs.Prelude.{◌≡◌, None, Some, map, IfOk};
ghost use Rattle.model_text.specs.Walk as W;
ghost use Rattle.model_text.specs.Keys as K;
ghost use Rattle.model_text.specs.Spaces as S;
ghost use Rattle.model_text.specs.Links as L;
ghost use Rattle.model_walk.specs.Shown.{refusal_of};
ghost use Rattle.model_walk.specs.Met.{IsWalk};
ghost use Rattle.model_walk.specs.Placed.{plain_group, placed_of};

mod child;
mod ends;
mod face;
mod judge;
mod lent;
mod limits;
mod section;

use crate::section::all_links;
pub use limits::link_limit_refused;
use model_tree::Link;
use model_walk::{PlacedGroup, ReadSections, Stop, Walked};
use std::alloc::Global;

/// The links of each section that the walk met, in its order. Refused is the least refusal of all.
pub fn links(
    alloc: Global,
    sections: &ReadSections<'_>,
    walked: &Walked<'_, '_>,
    groups: &[PlacedGroup<'_>],
) -> Result<Vec<Vec<Link>>, Stop>
    requires walk { IsWalk sections.now walked.now }
    requires keys { K.keys_refused sections.now ≡ None }
    requires spaces { S.spaces_refused sections.now ≡ None }
    requires groups { map plain_group groups.now ≡ map placed_of (W.groups sections.now) }
    ensures right { IfOk result (λ links. L.links_refused sections.now ≡ None) }
    ensures links { IfOk result
        (λ links. map (λ list. list.items) links.items
        ≡ map L.links_of (W.reached_sections sections.now)) }
    ensures refused { (why : _) → result ≡ Err (Stop.Refused why)
        → L.links_refused sections.now ≡ Some (refusal_of why) }
{
    let all = all_links(alloc, sections, &walked.sections, groups)?;
    match all.refused {
        Some(why) => Err(Stop::Refused(why)),
        None => Ok(all.links),
    }
}
