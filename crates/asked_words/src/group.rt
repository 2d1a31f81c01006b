// The group that is drawn, where it stands in a model.

/// A group: its number, counted in declared order, and the number of its first leaf.
#[derive(Clone, Copy)]
pub struct GroupAt {
    pub number: u32,
    pub first: u32,
}
