// Links that are added to components.
ghost use Rattle.std.specs.Prelude.{◌≡◌};
ghost use Rattle.std.specs.List.{list_any};
ghost use Rattle.model_tree.specs.Faces.{is_source, is_target, same_link};
ghost use Rattle.model_tree.specs.Linked.{LinksCoupled, LinksGroup, PutsLink};
ghost use Rattle.model_tree.specs.Causes.{OfCoupled, OfGroup, first_cause, face_in, refused_in};

use crate::component::Coupled;
use crate::ends::{are_own, is_at_one_child, same_link};
use crate::faces::{child_named, gives, is_among, takes};
use crate::group::CellGroup;
use crate::link::{End, Link};
use crate::refusal::LinkRefusal;

impl Coupled {
    /// Adds a link behind the others, or answers the first cause that applies and changes nothing:
    /// an end that is no port here, both ends at one child, both ends the component's own, a link
    /// that is there already.
    pub fn link(&mut self, link: Link) -> Result<(), LinkRefusal>
        ensures { LinksCoupled self.old link result self.new }
    {
        match self.refusal(&link) {
            Some(refusal) => Err(refusal),
            None => put_link(link, &mut self.links),
        }
    }

    /// Why a link is refused, if it is.
    fn refusal(&self, link: &Link) -> Option<LinkRefusal>
        ensures { OfCoupled self.now (λ t. result ≡ refused_in t link.now) }
    {
        let from = self.is_source(&link.from);
        let to = self.is_target(&link.to);
        first_refusal(from & to, link, &self.links)
    }

    /// Whether an end is an own input, or an output of a child.
    fn is_source(&self, end: &End) -> bool
        ensures { OfCoupled self.now (λ t. result ≡ is_source (face_in t) end.now) }
    {
        match end {
            End::Own(port) => is_among(&self.ins, port),
            End::Child(port, child) => match child_named(&self.children, child) {
                None => false,
                Some(found) => gives(found, port),
            },
            End::Cell(_, _) => false,
        }
    }

    /// Whether an end is an own output, or an input of a child.
    fn is_target(&self, end: &End) -> bool
        ensures { OfCoupled self.now (λ t. result ≡ is_target (face_in t) end.now) }
    {
        match end {
            End::Own(port) => is_among(&self.outs, port),
            End::Child(port, child) => match child_named(&self.children, child) {
                None => false,
                Some(found) => takes(found, port),
            },
            End::Cell(_, _) => false,
        }
    }
}

impl CellGroup {
    /// Adds a link behind the others, or answers the first cause that applies and changes nothing:
    /// an end that is no port here, both ends at one cell, both ends the group's own, a link that
    /// is there already.
    pub fn link(&mut self, link: Link) -> Result<(), LinkRefusal>
        ensures { LinksGroup self.old link result self.new }
    {
        match self.refusal(&link) {
            Some(refusal) => Err(refusal),
            None => put_link(link, &mut self.links),
        }
    }

    /// Why a link is refused, if it is.
    fn refusal(&self, link: &Link) -> Option<LinkRefusal>
        ensures { OfGroup self.now (λ t. result ≡ refused_in t link.now) }
    {
        let from = self.is_source(&link.from);
        let to = self.is_target(&link.to);
        first_refusal(from & to, link, &self.links)
    }

    /// Whether an end is an own input, or the output port `out` of a cell.
    fn is_source(&self, end: &End) -> bool
        ensures { OfGroup self.now (λ t. result ≡ is_source (face_in t) end.now) }
    {
        match end {
            End::Own(port) => is_among(&self.ins, port),
            End::Child(_, _) => false,
            End::Cell(port, cell) => (port.as_bytes() == b"out".as_slice())
                & (*cell < self.grid.cells()),
        }
    }

    /// Whether an end is an own output, or any port of a cell.
    fn is_target(&self, end: &End) -> bool
        ensures { OfGroup self.now (λ t. result ≡ is_target (face_in t) end.now) }
    {
        match end {
            End::Own(port) => is_among(&self.outs, port),
            End::Child(_, _) => false,
            End::Cell(_, cell) => *cell < self.grid.cells(),
        }
    }
}

/// Adds a link behind the others, unless there is no memory for it.
fn put_link(link: Link, links: &mut Vec<Link>) -> Result<(), LinkRefusal>
    ensures { PutsLink links.old.items link result links.new.items }
{
    links.push(link).map_err(|_| LinkRefusal::Memory)?;
    Ok(())
}

/// The first cause to refuse a link that stands after these. `known` says whether its ends are
/// ports.
fn first_refusal(known: bool, link: &Link, before: &[Link]) -> Option<LinkRefusal>
    ensures { result ≡ first_cause known before.now link.now }
{
    if !known {
        Some(LinkRefusal::UnknownPort)
    } else if is_at_one_child(&link.from, &link.to) {
        Some(LinkRefusal::SelfLink)
    } else if are_own(&link.from, &link.to) {
        Some(LinkRefusal::PassThrough)
    } else if is_there(link, before) {
        Some(LinkRefusal::DuplicateLink)
    } else {
        None
    }
}

fn is_there(link: &Link, before: &[Link]) -> bool
    ensures { result ≡ list_any (same_link link.now) before.now }
{
    before.iter().any(|other| same_link(link, other))
}
