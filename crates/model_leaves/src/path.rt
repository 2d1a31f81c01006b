// Where values come from and where they go, by numbers.
use atomic_face::PortNo;

/// Where values come from: the output port `out` of a leaf, or an input of top, by its number.
#[derive(Clone, Copy, PartialEq, Eq, Debug)]
pub enum Source {
    Leaf(u32),
    TopIn(u16),
}

/// Where a path ends: an input port of a leaf, or an output of top, by its number.
#[derive(Clone, Copy, PartialEq, Eq, Debug)]
pub enum TargetPort {
    Leaf(u32, PortNo),
    TopOut(u16),
}

/// A path along links, from a source to a port.
#[derive(Clone, Copy)]
pub struct Path {
    pub from: Source,
    pub to: TargetPort,
}

/// Where a source leads: to a port, as the source of this place there, by the path of this number.
#[derive(Clone, Copy, PartialEq, Eq, Debug)]
pub struct Target {
    pub to: TargetPort,
    pub rank: u32,
    pub path: u32,
}
