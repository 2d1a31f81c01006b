// The plane that is drawn.
use cell_grid::Grid;

/// The plane that is drawn of a space, and how: so many places for a value, and so many decimals.
#[derive(Clone, Copy)]
pub(crate) struct Plane {
    pub(crate) grid: Grid,
    pub(crate) plane: u32,
    pub(crate) width: u8,
    pub(crate) decimals: u8,
}
