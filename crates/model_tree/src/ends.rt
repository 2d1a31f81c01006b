// Ends of links, compared.
ghost use Rattle.std.specs.Prelude.{◌≡◌};
ghost use Rattle.model_tree.specs.Pull.{is_own, is_child, is_cell};
ghost use Rattle.model_tree.specs.Faces.{is_at_one_child, are_own, same_end, same_link};

use crate::link::{End, Link};
use quantity::Name;

/// Whether both ends are at one child, or at one cell.
pub(crate) fn is_at_one_child(a: &End, b: &End) -> bool
    ensures { result ≡ is_at_one_child a.now b.now }
{
    match a {
        End::Own(_) => false,
        End::Child(_, child) => match b {
            End::Child(_, other) => child.as_bytes() == other.as_bytes(),
            End::Own(_) | End::Cell(_, _) => false,
        },
        End::Cell(_, cell) => match b {
            End::Cell(_, other) => *cell == *other,
            End::Own(_) | End::Child(_, _) => false,
        },
    }
}

/// Whether both ends are the component's own.
pub(crate) fn are_own(a: &End, b: &End) -> bool
    ensures { result ≡ are_own a.now b.now }
{
    match a {
        End::Own(_) => match b {
            End::Own(_) => true,
            End::Child(_, _) | End::Cell(_, _) => false,
        },
        End::Child(_, _) | End::Cell(_, _) => false,
    }
}

/// Whether two links join the same ends.
pub(crate) fn same_link(a: &Link, b: &Link) -> bool
    ensures { result ≡ same_link a.now b.now }
{
    same_end(&a.from, &b.from) & same_end(&a.to, &b.to)
}

fn same_end(a: &End, b: &End) -> bool
    ensures { result ≡ same_end a.now b.now }
{
    match b {
        End::Own(port) => is_own(port, a),
        End::Child(port, child) => is_child(port, child, a),
        End::Cell(port, cell) => is_cell(port, *cell, a),
    }
}

fn is_own(port: &Name, end: &End) -> bool
    ensures { result ≡ is_own port.now end.now }
{
    match end {
        End::Own(other) => other.as_bytes() == port.as_bytes(),
        End::Child(_, _) | End::Cell(_, _) => false,
    }
}

fn is_child(port: &Name, child: &Name, end: &End) -> bool
    ensures { result ≡ is_child port.now child.now end.now }
{
    match end {
        End::Child(at, of) => {
            (at.as_bytes() == port.as_bytes()) & (of.as_bytes() == child.as_bytes())
        }
        End::Own(_) | End::Cell(_, _) => false,
    }
}

fn is_cell(port: &Name, cell: u32, end: &End) -> bool
    ensures { result ≡ is_cell port.now cell end.now }
{
    match end {
        End::Cell(at, of) => (at.as_bytes() == port.as_bytes()) & (*of == cell),
        End::Own(_) | End::Child(_, _) => false,
    }
}
