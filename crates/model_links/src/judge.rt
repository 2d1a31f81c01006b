// Links judged by the face of their section.
ghost use Rattle.std.specs.Prelude.{◌≡◌, ◌&&◌, [], map, IfOk};
ghost use Rattle.std.specs.Option.{option_map};
ghost use Rattle.model_tree.specs.Faces as F;
ghost use Rattle.model_text.specs.Keyed.{least_refusal};
ghost use Rattle.model_walk.specs.Shown.{refusal_of};
ghost use Rattle.model_links.specs.Lent.{link_of_lent};
ghost use Rattle.model_links.specs.Judged.{is_source_of, is_target_of, cause_of, kind_after};
ghost use Rattle.model_links.specs.Judged.{refusal_after, refused_after};

use crate::face::Face;
use crate::lent::{LentLink, add_link, has_end, has_link};
use crate::section::FoundLink;
use indexmap::IndexSet;
use model_text::Kind;
use model_tree::{End, Link};
use model_walk::Refused;
use model_walk::least::least;
use quantity::OutOfMemory;

/// The least refusal of the links of a section, which stand in their order. They are put into a set
/// that is empty at first.
pub(crate) fn first_refused<'a>(
    face: &Face<'_>,
    before: &mut IndexSet<LentLink<'a>>,
    found: &'a [FoundLink],
) -> Result<Option<Refused>, OutOfMemory>
    requires { map link_of_lent before.old.keys ≡ [] }
    ensures { IfOk result (λ why. option_map refusal_of why
        ≡ least_refusal (refused_after face.now [] found.now)) }
{
    let mut first = None;
    for one in found {
        first = least(first, refused(face, before, one));
        add_link(&one.link, before)?;
    }
    Ok(first)
}

/// Why a link is refused that stands after these.
fn refused(face: &Face<'_>, before: &IndexSet<LentLink<'_>>, found: &FoundLink) -> Option<Refused>
    ensures { option_map refusal_of result
        ≡ refusal_after face.now (map link_of_lent before.now.keys) found.now }
{
    let kind = kind_after(face, before, &found.link)?;
    Some(Refused {
        line: found.line,
        kind,
    })
}

fn kind_after(face: &Face<'_>, before: &IndexSet<LentLink<'_>>, link: &Option<Link>) -> Option<Kind>
    ensures { result ≡ kind_after face.now (map link_of_lent before.now.keys) link.now }
{
    let Some(link) = link else {
        return Some(Kind::UnknownPort);
    };
    let is_known = has_ends(face, link);
    let is_there = has_link(before, link);
    cause_of(is_known, is_there, link)
}

/// Whether a link begins and ends at ports that there are.
fn has_ends(face: &Face<'_>, link: &Link) -> bool
    ensures { result ≡ (is_source_of face.now link.now.from && is_target_of face.now link.now.to) }
{
    is_source(face, &link.from) & is_target(face, &link.to)
}

/// Whether an end is an own input, an output of a child or that of a cell.
fn is_source(face: &Face<'_>, end: &End) -> bool
    ensures { result ≡ is_source_of face.now end.now }
{
    match end {
        End::Own(_) | End::Child(_, _) => has_end(&face.sources, end),
        End::Cell(port, cell) => (port.as_bytes() == b"out".as_slice()) & (*cell < face.cells),
    }
}

/// Whether an end is an own output, an input of a child or any port of a cell.
fn is_target(face: &Face<'_>, end: &End) -> bool
    ensures { result ≡ is_target_of face.now end.now }
{
    match end {
        End::Own(_) | End::Child(_, _) => has_end(&face.targets, end),
        End::Cell(_, cell) => *cell < face.cells,
    }
}

/// The first cause to refuse a link.
fn cause_of(is_known: bool, is_there: bool, link: &Link) -> Option<Kind>
    ensures { result ≡ cause_of is_known is_there link.now }
{
    if !is_known {
        Some(Kind::UnknownPort)
    } else if is_at_one_child(&link.from, &link.to) {
        Some(Kind::SelfLink)
    } else if are_own(&link.from, &link.to) {
        Some(Kind::PassThrough)
    } else if is_there {
        Some(Kind::DuplicateLink)
    } else {
        None
    }
}

/// Whether both ends are at one child, or at one cell.
fn is_at_one_child(a: &End, b: &End) -> bool
    ensures { result ≡ F.is_at_one_child a.now b.now }
{
    match (a, b) {
        (End::Child(_, child), End::Child(_, other)) => child.as_bytes() == other.as_bytes(),
        (End::Cell(_, cell), End::Cell(_, other)) => *cell == *other,
        _ => false,
    }
}

/// Whether both ends are the section's own.
fn are_own(a: &End, b: &End) -> bool
    ensures { result ≡ F.are_own a.now b.now }
{
    matches!(a, End::Own(_)) & matches!(b, End::Own(_))
}
