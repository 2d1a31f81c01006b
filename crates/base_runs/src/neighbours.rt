// Cells at the edge and away from it, with ample memory.
use crate::offsets::beside;
use cell_grid::{Border, Grid};
use cell_reach::Reach;
use std::test::Fail;

#[test]
fn neighbours_at_the_edge_and_away_from_it(rt: HostRuntime) -> Result<(), Fail> {
    let grid = Grid::new(1, 5, None, Border::Wrapped).ok_or("no space")?;
    let reach = Reach::new(rt.alloc(), grid, &[beside(-1), beside(1)])?;
    let mut found = [None; 2];
    for (cell, before, behind) in [(0, 4, 1), (2, 1, 3), (4, 3, 0)] {
        assert!(rt; cell < grid.cells());
        reach.neighbours(cell, &mut found);
        assert_eq!(rt; found, [Some(before), Some(behind)]);
    }
    Ok(())
}
