// Whole numbers in parentheses, as they are kept.

/// Two or three whole numbers of at most 7 digits: a place or an offset in a space of two or three
/// dimensions.
#[derive(Clone, Copy)]
pub struct Tuple {
    pub row: i32,
    pub column: i32,
    /// The third number, where there is one.
    pub plane: Option<i32>,
}

/// A tuple with the name that stands in front of it.
#[derive(Clone, Copy)]
pub struct NamedTuple<'a> {
    /// What stands before the opening parenthesis: any bytes, or none.
    pub name: &'a [u8],
    pub place: Tuple,
}
