// Where an item of a list in pieces stands.

/// The place of an item: the number of its piece, and its place in it.
#[derive(Clone, Copy)]
pub(crate) struct Place {
    pub piece: usize,
    pub within: usize,
}
