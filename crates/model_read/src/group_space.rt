// A group with its space.
use cell_grid::Grid;
use ma_lines::Section;

/// A group's section and its space.
#[derive(Clone, Copy)]
pub(crate) struct GroupSpace<'a> {
    pub(crate) section: &'a Section,
    pub(crate) grid: Grid,
}
