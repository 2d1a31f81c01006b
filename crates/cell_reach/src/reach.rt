// The neighbours and the watchers of all cells of a space.
ghost use Rattle.std.specs.Prelude.{◌≡◌, ℕ, ◌<◌, ◌≤◌, ◌↔◌, length, IfOk, IfSome, IsSome};
ghost use Rattle.std.specs.List.{All};
ghost use Rattle.std.specs.Vec.{vec_capacity};
ghost use Rattle.cell_grid.specs.Space.{cell_count, place_of};
ghost use Rattle.cell_reach.specs.Neighbourhoods.{Neighbourhood, neighbours, opposite_neighbourhood};
ghost use Rattle.cell_reach.specs.Neighbourhoods.{StandsInside, AreDifferences, AreWatchers};

use crate::strides::Strides;
use cell_grid::Grid;
use cell_grid::step::Step;
use quantity::{Offset, OutOfMemory, Place};
use std::alloc::Global;
use std::marker::Model;

/// A space and the offsets by which its cells have neighbours. Away from the edges each neighbour's
/// number is that of the cell and a fixed difference, worked out once for each offset.
#[derive(Drop)]
pub struct Reach {
    ahead: Strides,
    back: Strides,
}

impl Model for Reach {
    ghost use Rattle.std.specs.Prelude.{◌≡◌, map};
    ghost use Rattle.cell_grid.specs.Watched.{opposite};
    ghost use Rattle.cell_reach.specs.Neighbourhoods.{Neighbourhood};

    ghost Value = { Neighbourhood };

    ghost view = { λ r. r.ahead };

    ghost invariant = { λ r. (r.back.space ≡ r.ahead.space)
        × (r.back.offsets ≡ map opposite r.ahead.offsets) };
}

impl Reach {
    /// The reach of these offsets in a space.
    pub fn new(alloc: Global, grid: Grid, offsets: &[Offset]) -> Result<Reach, OutOfMemory>
        ensures { IfOk result (λ reach. reach ≡ record { space = grid; offsets = offsets.now }) }
    {
        let mut ahead = Strides::new(alloc, grid);
        let mut back = Strides::new(alloc, grid);
        for offset in offsets {
            ahead.push(Step::along(*offset))?;
            back.push(Step::back(*offset))?;
        }
        Ok(Reach { ahead, back })
    }

    /// How far each neighbour's number is from the cell's, in the order of the offsets, where the
    /// cell at this place stands so far from the edges that no offset leads past one. The
    /// differences are the same for all such cells. None exactly where an offset leads past an edge
    /// from there, or the place is outside the space. Nothing is divided, so a cell's place is worked
    /// out once, for all that it is needed for.
    #[inline(always)]
    pub fn differences_at(&self, place: Place) -> Option<&[i32]>
        ensures some { IsSome result ↔ StandsInside self.now place }
        ensures all { IfSome result (λ ds. length ds.now ≡ length self.now.offsets) }
        ensures far { (cell : ℕ) → place ≡ place_of self.now.space cell
            → IfSome result (λ ds. AreDifferences self.now cell ds.now) }
    {
        self.ahead.differences_at(place)
    }

    /// Writes the neighbours of a cell by all offsets, in the order of the offsets, into a slice
    /// that has as many elements. None is outside a space that is not wrapped.
    pub fn neighbours(&self, cell: u32, into: &mut [Option<u32>])
        requires here { cell < cell_count self.now.space }
        requires length { length into.old ≡ length self.now.offsets }
        ensures { into.new ≡ neighbours self.now cell }
    {
        self.ahead.fill(cell, into);
    }

    /// Writes for each offset, in their order, the cell that has this cell as its neighbour by it,
    /// into a slice that has as many elements. None where no cell has. A cell to which two offsets
    /// of a small wrapped space belong stands there twice.
    pub fn watchers_by_offset(&self, cell: u32, into: &mut [Option<u32>])
        requires here { cell < cell_count self.now.space }
        requires length { length into.old ≡ length self.now.offsets }
        ensures { into.new ≡ neighbours (opposite_neighbourhood self.now) cell }
    {
        self.back.fill(cell, into);
    }

    /// How much further the numbers of these cells are than the cell's, in the same order. None
    /// exactly where an offset leads past an edge on the way back to it.
    #[inline(always)]
    pub fn watching_differences(&self, cell: u32) -> Option<&[i32]>
        requires here { cell < cell_count self.now.space }
        ensures some { IsSome result ↔ StandsInside (opposite_neighbourhood self.now)
            (place_of self.now.space cell) }
        ensures far { IfSome result
            (λ ds. AreDifferences (opposite_neighbourhood self.now) cell ds.now) }
    {
        self.back.differences(cell)
    }

    /// Puts into `into`, in place of what it holds, exactly the cells that have this cell as a
    /// neighbour, in any order and perhaps more than once: at most one for each offset, for which
    /// there has to be room. It takes no memory.
    pub fn watchers(&self, cell: u32, into: &mut Vec<u32>)
        requires here { cell < cell_count self.now.space }
        requires room { length self.now.offsets ≤ vec_capacity into.old }
        ensures members { AreWatchers self.now cell into.new.items }
        ensures inside { All (λ x. x < cell_count self.now.space) into.new.items }
        ensures few { length into.new.items ≤ length self.now.offsets }
        ensures capacity { vec_capacity into.new ≡ vec_capacity into.old }
    {
        self.back.collect(cell, into);
    }
}
