// What stands at ports, as nodes.
use crate::arrivals::Arrivals;
use crate::children::Children;
use quantity::Name;

/// What a component gives: its first leaf, how many leaves it has, and the nodes of what its links
/// bring where nothing stands at the own inputs.
#[derive(Drop)]
pub(crate) struct Outputs {
    pub(crate) first: u32,
    pub(crate) leaves: u32,
    pub(crate) links: Arrivals,
}

/// Which links are meant of those that lead to ports of a name: to own ports, to those of a child,
/// or to those of a cell.
#[derive(Clone, Copy)]
pub enum At<'n> {
    Own,
    Child(&'n Name),
    Cell(u32),
}

/// Where the lists at ports come from: nothing stands there, or the inputs of top by these names,
/// or what links bring, by their nodes.
#[derive(Clone, Copy)]
pub(crate) enum Ports<'k, 'n> {
    Nothing,
    Inputs(&'n [Name]),
    Linked(&'k Arrivals, At<'n>),
}

/// What is inside a component: children with their outputs, or cells, the first of which is this
/// leaf.
#[derive(Clone, Copy)]
pub(crate) enum Inside<'i, 'c> {
    Children(&'i Children<'c>, &'i [Outputs]),
    Cells(u32),
}
