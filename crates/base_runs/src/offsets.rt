// Offsets as tests give them.
use quantity::Offset;

/// From a cell to one in its row, so many columns on.
pub(crate) fn beside(column: i8) -> Offset {
    Offset {
        row: 0,
        column,
        plane: 0,
    }
}
