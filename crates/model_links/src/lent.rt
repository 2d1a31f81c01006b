// Ends and links that lend their names, as they are looked up.
ghost use Rattle.std.specs.Prelude.{◌≡◌, map, OnOk, OnErr, option_to_list};
ghost use Rattle.std.specs.List.{list_any};
ghost use Rattle.model_tree.specs.Faces.{same_end, same_link};
ghost use Rattle.model_links.specs.Lent.{end_of, link_of_lent, with_end, AddsLinks};

use indexmap::IndexSet;
use model_tree::{End, Link};
use quantity::OutOfMemory;

/// An end of a link, port first.
#[derive(Clone, Copy, PartialEq, Eq, Hash)]
pub(crate) enum LentEnd<'a> {
    /// A port of the section itself.
    Own(&'a [u8]),
    /// A port of a child.
    Child(&'a [u8], &'a [u8]),
    /// A port of a cell.
    Cell(&'a [u8], u32),
}

/// A link whose ends are lent.
#[derive(Clone, Copy, PartialEq, Eq, Hash)]
pub(crate) struct LentLink<'a> {
    from: LentEnd<'a>,
    to: LentEnd<'a>,
}

fn lend_end(end: &End) -> LentEnd<'_>
    ensures { end_of result ≡ end.now }
{
    match end {
        End::Own(port) => LentEnd::Own(port.as_bytes()),
        End::Child(port, child) => LentEnd::Child(port.as_bytes(), child.as_bytes()),
        End::Cell(port, cell) => LentEnd::Cell(port.as_bytes(), *cell),
    }
}

fn lend_link(link: &Link) -> LentLink<'_>
    ensures { link_of_lent result ≡ link.now }
{
    LentLink {
        from: lend_end(&link.from),
        to: lend_end(&link.to),
    }
}

/// Whether an end is among these.
#[tactic(auto, using(crate::proofs::Looked::has_lent))]
pub(crate) fn has_end(ends: &IndexSet<LentEnd<'_>>, end: &End) -> bool
    ensures { result ≡ list_any (same_end end.now) (map end_of ends.now.keys) }
{
    ends.contains(&lend_end(end))
}

/// Puts an end behind the others, unless it is there. Where memory is refused, nothing changes.
#[tactic(auto, using(crate::proofs::Looked::lent_added))]
pub(crate) fn add_end<'a>(
    end: LentEnd<'a>,
    ends: &mut IndexSet<LentEnd<'a>>,
) -> Result<(), OutOfMemory>
    ensures ok { OnOk result (map end_of ends.new.keys
        ≡ with_end (map end_of ends.old.keys) (end_of end.entry)) }
    ensures err { OnErr result (ends.new.keys ≡ ends.old.keys) }
{
    let Ok(_is_new) = ends.insert(end) else {
        return Err(OutOfMemory);
    };
    Ok(())
}

/// Whether a link is among these.
#[tactic(auto, using(crate::proofs::Looked::has_lent_link))]
pub(crate) fn has_link(links: &IndexSet<LentLink<'_>>, link: &Link) -> bool
    ensures { result ≡ list_any (same_link link.now) (map link_of_lent links.now.keys) }
{
    links.contains(&lend_link(link))
}

/// Puts a link behind the others, where there is one that isn't there yet. Where memory is refused,
/// nothing changes.
#[tactic(auto, using(crate::proofs::Looked::lent_link_added))]
pub(crate) fn add_link<'a>(
    link: &'a Option<Link>,
    links: &mut IndexSet<LentLink<'a>>,
) -> Result<(), OutOfMemory>
    ensures ok { OnOk result (AddsLinks (option_to_list link.now) links.old.keys links.new.keys) }
    ensures err { OnErr result (links.new.keys ≡ links.old.keys) }
{
    let Some(link) = link else {
        return Ok(());
    };
    let Ok(_is_new) = links.insert(lend_link(link)) else {
        return Err(OutOfMemory);
    };
    Ok(())
}
