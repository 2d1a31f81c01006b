// Steps from cell to cell.
ghost use Rattle.std.specs.Prelude.{◌≡◌};
ghost use Rattle.cell_grid.specs.Watched.{opposite};
ghost use Rattle.cell_grid.specs.Steps.{offset_of_step};

use quantity::Offset;

/// So many rows down, columns to the right and planes on. It is wider than an offset, since the
/// opposite of -128 is none.
#[derive(Clone, Copy)]
pub struct Step {
    pub rows: i16,
    pub columns: i16,
    pub planes: i16,
}

impl Step {
    /// The step that an offset is.
    pub fn along(offset: Offset) -> Step
        ensures { offset_of_step result ≡ offset }
    {
        Step {
            rows: offset.row.into(),
            columns: offset.column.into(),
            planes: offset.plane.into(),
        }
    }

    /// The step that leads back from where the offset leads.
    pub fn back(offset: Offset) -> Step
        ensures { offset_of_step result ≡ opposite offset }
    {
        Step {
            rows: -i16::from(offset.row),
            columns: -i16::from(offset.column),
            planes: -i16::from(offset.plane),
        }
    }
}
