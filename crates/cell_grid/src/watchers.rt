// The cells that have a cell as a neighbour.
ghost use Rattle.std.specs.Prelude.{◌≡◌, OnOk, OnErr};
ghost use Rattle.cell_grid.specs.Watched.{watchers};

use crate::grid::Grid;
use crate::step::Step;
use quantity::{Offset, OutOfMemory};

impl Grid {
    /// Puts into `into`, in place of what it holds, the rising list without repeats of the cells
    /// that have this cell as a neighbour by one of the offsets: none where the number is that of
    /// no cell. The time grows with the number of offsets and its logarithm, and not with the
    /// space. Without memory `into` stays as it was.
    pub fn watchers(
        &self,
        cell: u32,
        offsets: &[Offset],
        into: &mut Vec<u32>,
    ) -> Result<(), OutOfMemory>
        ensures ok { OnOk result (into.new.items ≡ watchers self.now offsets.now cell) }
        ensures err { OnErr result (into.new.items ≡ into.old.items) }
    {
        if self.cells() <= cell {
            into.clear();
            return Ok(());
        }
        into.reserve(offsets.len().saturating_sub(into.len()))?;
        into.clear();
        let place = self.position(cell);
        for offset in offsets {
            if let Some(watcher) = self.reached(place, Step::back(*offset)) {
                into.push_reserved(watcher);
            }
        }
        into.sort_unstable();
        into.dedup();
        Ok(())
    }
}
