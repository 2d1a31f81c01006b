// Parts of lists.

/// A part of a list: where it begins, and how much belongs to it.
#[derive(Clone, Copy)]
pub struct Span {
    pub first: u32,
    pub count: u32,
}
