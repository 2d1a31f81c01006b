// Strides from the cells of a space: at the edges as each coordinate moves, elsewhere by fixed
// differences.
ghost use Rattle.std.specs.Prelude.{◌≡◌, ℕ, [], ◌∷◌, ◌++◌, ◌+◌, ◌<◌, ◌≤◌, ◌↔◌, Some, length, map, pos};
ghost use Rattle.std.specs.Prelude.{◌*◌, ◌^◌, ◌+ℤ◌, ◌*ℤ◌, ◌≤ℤ◌, ◌<ℤ◌, unsigned_abs, OnOk, OnErr, IfSome, IsSome};
ghost use Rattle.std.specs.List.{All, filter_map};
ghost use Rattle.std.specs.Vec.{vec_capacity};
ghost use Rattle.quantity.specs.declared.bounds.TheConstants.{MAX_CELLS};
ghost use Rattle.cell_grid.specs.Watched.{IsInside};
ghost use Rattle.cell_grid.specs.Space.{cell_count, place_of, neighbour, neighbour_at};
ghost use Rattle.cell_reach.specs.Neighbourhoods.{Neighbourhood, neighbours, difference};
ghost use Rattle.cell_reach.specs.Neighbourhoods.{StandsInside, further, LeadsInside, AreDifferences};
ghost use Rattle.cell_grid.specs.Steps.{offset_of_step};

use crate::inner::Inner;
use cell_grid::Grid;
use cell_grid::step::Step;
use quantity::{MAX_CELLS, OutOfMemory, Place};
use std::alloc::Global;
use std::marker::Model;

/// A space and steps from its cells. Each step has its difference: how much further the number is
/// of the cell that it leads to where it passes no edge. The differences stand apart from the
/// steps, one behind the other, so that many are added at once.
#[derive(Drop)]
pub struct Strides {
    grid: Grid,
    steps: Vec<Step>,
    differences: Vec<i32>,
    inner: Inner,
}

impl Model for Strides {
    ghost use Rattle.std.specs.Prelude.{map};
    ghost use Rattle.cell_reach.specs.Neighbourhoods.{Neighbourhood};
    ghost use Rattle.cell_grid.specs.Steps.{offset_of_step};
    ghost use Rattle.cell_reach.specs.FixedSteps.{AreInner};

    ghost Value = { Neighbourhood };

    ghost view = { λ s. record { space = s.grid; offsets = map offset_of_step s.steps.items } };

    ghost invariant = { λ s. AreInner s.grid s.inner s.steps.items s.differences.items };
}

impl Strides {
    /// No step.
    pub fn new(alloc: Global, grid: Grid) -> Strides
        ensures { result ≡ record { space = grid; offsets = [] } }
    {
        Strides {
            grid,
            steps: Vec::new(alloc),
            differences: Vec::new(alloc),
            inner: Inner::whole(grid),
        }
    }

    /// Adds a step behind the others. Where memory is refused, nothing changes.
    pub fn push(&mut self, step: Step) -> Result<(), OutOfMemory>
        ensures ok { OnOk result (self.new ≡ record {
          space = self.old.space;
          offsets = self.old.offsets ++ offset_of_step step ∷ [];
        }) }
        ensures err { OnErr result (self.new ≡ self.old) }
    {
        self.steps.reserve(1)?;
        self.differences.reserve(1)?;
        self.inner = self.inner.narrowed(self.grid, step);
        self.steps.push_reserved(step);
        self.differences.push_reserved(difference(self.grid, step));
        Ok(())
    }

    /// How much further the cell is that each step leads to from this cell. None exactly where one
    /// passes an edge.
    #[inline(always)]
    pub fn differences(&self, cell: u32) -> Option<&[i32]>
        requires here { cell < cell_count self.now.space }
        ensures some { IsSome result ↔ StandsInside self.now (place_of self.now.space cell) }
        ensures all { IfSome result (λ ds. length ds.now ≡ length self.now.offsets) }
        ensures far { IfSome result (λ ds. AreDifferences self.now cell ds.now) }
    {
        self.differences_at(self.grid.position(cell))
    }

    /// The same of the cell at a place: nothing is divided. None exactly where a step leads past an
    /// edge from there, or the place is outside the space.
    #[inline(always)]
    pub fn differences_at(&self, place: Place) -> Option<&[i32]>
        ensures some { IsSome result ↔ StandsInside self.now place }
        ensures all { IfSome result (λ ds. length ds.now ≡ length self.now.offsets) }
        ensures far { (cell : ℕ) → place ≡ place_of self.now.space cell
            → IfSome result (λ ds. AreDifferences self.now cell ds.now) }
    {
        if self.inner.has(place) {
            return Some(self.differences.as_slice());
        }
        None
    }

    /// Writes the cell that each step leads to from this cell.
    pub fn fill(&self, cell: u32, into: &mut [Option<u32>])
        requires here { cell < cell_count self.now.space }
        requires length { length into.old ≡ length self.now.offsets }
        ensures { into.new ≡ neighbours self.now cell }
    {
        match self.differences(cell) {
            Some(differences) => fill_inside(self.grid, differences, cell, into),
            None => self.fill_past_edges(cell, into),
        }
    }

    // Out of line, so that nothing is got ready for it where no step passes an edge.
    #[inline(never)]
    fn fill_past_edges(&self, cell: u32, into: &mut [Option<u32>])
        requires here { cell < cell_count self.now.space }
        requires length { length into.old ≡ length self.now.offsets }
        ensures { into.new ≡ neighbours self.now cell }
    {
        fill_at(self.grid, &self.steps, self.grid.position(cell), into);
    }

    /// Puts the cells that the steps lead to from this cell into a list, in place of what it holds.
    pub fn collect(&self, cell: u32, into: &mut Vec<u32>)
        requires here { cell < cell_count self.now.space }
        requires room { length self.now.offsets ≤ vec_capacity into.old }
        ensures cells { into.new.items
            ≡ filter_map (neighbour self.now.space cell) self.now.offsets }
        ensures capacity { vec_capacity into.new ≡ vec_capacity into.old }
    {
        match self.differences(cell) {
            Some(differences) => {
                set_len(into, differences.len());
                write_inside(self.grid, differences, cell, into);
            }
            None => self.collect_past_edges(cell, into),
        }
    }

    // Out of line, as `fill_past_edges`.
    #[inline(never)]
    fn collect_past_edges(&self, cell: u32, into: &mut Vec<u32>)
        requires here { cell < cell_count self.now.space }
        requires room { length self.now.offsets ≤ vec_capacity into.old }
        ensures cells { into.new.items
            ≡ filter_map (neighbour self.now.space cell) self.now.offsets }
        ensures capacity { vec_capacity into.new ≡ vec_capacity into.old }
    {
        into.clear();
        collect_at(self.grid, &self.steps, self.grid.position(cell), into);
    }
}

/// How much further the number of the cell is that a step leads to where it passes no edge. Where
/// that is further than any cell, the step passes one from each place.
fn difference(grid: Grid, step: Step) -> i32
    ensures { unsigned_abs (difference grid (offset_of_step step)) ≤ MAX_CELLS
        → result ≡ difference grid (offset_of_step step) }
{
    if_near(distance(grid, step))
}

/// The difference, however far it is.
fn distance(grid: Grid, step: Step) -> i64
    ensures { result ≡ difference grid (offset_of_step step) }
{
    let rows = i64::from(step.rows);
    let lines = with_part(rows, grid.columns(), step.columns);
    with_part(lines, grid.planes(), step.planes)
}

/// A number of wholes of this size, and so many of its parts.
fn with_part(wholes: i64, size: u32, parts: i16) -> i64
    requires wholes { unsigned_abs wholes ≤ 2 ^ 36 }
    requires size { size ≤ MAX_CELLS }
    ensures { result ≡ (wholes *ℤ pos size) +ℤ parts }
{
    wholes * i64::from(size) + i64::from(parts)
}

/// A difference, where it is not further than any cell.
fn if_near(cells: i64) -> i32
    ensures { unsigned_abs cells ≤ MAX_CELLS → result ≡ cells }
{
    if cells.unsigned_abs() <= u64::from(MAX_CELLS) {
        cells as i32
    } else {
        0
    }
}

/// The cell whose number is so much further.
fn further(cell: u32, cells: i32) -> u32
    requires near { cell < MAX_CELLS }
    requires low { pos 0 ≤ℤ (pos cell +ℤ cells) }
    requires high { (pos cell +ℤ cells) <ℤ pos 1048577 }
    ensures { result ≡ further cell cells }
{
    (cell as i32 + cells) as u32
}

fn fill_inside(grid: Grid, differences: &[i32], cell: u32, into: &mut [Option<u32>])
    requires here { cell < cell_count grid }
    requires inside { All (LeadsInside grid cell) differences.now }
    requires length { length into.old ≡ length differences.now }
    ensures { into.new ≡ map (λ d. Some (further cell d)) differences.now }
{
    for (place, difference) in differences.iter().enumerate() {
        into[place] = Some(further(cell, *difference));
    }
}

fn fill_at(grid: Grid, steps: &[Step], from: Place, into: &mut [Option<u32>])
    requires here { IsInside grid from }
    requires length { length into.old ≡ length steps.now }
    ensures { into.new ≡ map (λ step. neighbour_at grid from (offset_of_step step)) steps.now }
{
    for (place, step) in steps.iter().enumerate() {
        into[place] = grid.reached(from, *step);
    }
}

/// Gives a list this length, where there is room for it. What it holds is to be written.
fn set_len(into: &mut Vec<u32>, len: usize)
    requires room { len ≤ vec_capacity into.old }
    ensures len { length into.new.items ≡ len }
    ensures capacity { vec_capacity into.new ≡ vec_capacity into.old }
{
    if into.len() == len {
        return;
    }
    into.clear();
    for _place in 0..len {
        into.push_reserved(0);
    }
}

// Written into a slice, since a list that grows would keep its length in memory at each step.
fn write_inside(grid: Grid, differences: &[i32], cell: u32, into: &mut [u32])
    requires here { cell < cell_count grid }
    requires inside { All (LeadsInside grid cell) differences.now }
    requires length { length into.old ≡ length differences.now }
    ensures { into.new ≡ map (further cell) differences.now }
{
    for (place, difference) in differences.iter().enumerate() {
        into[place] = further(cell, *difference);
    }
}

fn collect_at(grid: Grid, steps: &[Step], from: Place, into: &mut Vec<u32>)
    requires here { IsInside grid from }
    requires empty { into.old.items ≡ [] }
    requires room { length steps.now ≤ vec_capacity into.old }
    ensures cells { into.new.items
        ≡ filter_map (λ step. neighbour_at grid from (offset_of_step step)) steps.now }
    ensures capacity { vec_capacity into.new ≡ vec_capacity into.old }
{
    for step in steps {
        if let Some(to) = grid.reached(from, *step) {
            into.push_reserved(to);
        }
    }
}
