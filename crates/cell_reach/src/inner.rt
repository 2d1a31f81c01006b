// Places from which no step leads past an edge.
ghost use Rattle.std.specs.Prelude.{◌≡◌, ℕ, ◌+◌, ◌<◌, ◌≤◌, ◌↔◌, IsTrue};
ghost use Rattle.quantity.specs.declared.bounds.TheConstants.{MAX_CELLS};

use cell_grid::Grid;
use cell_grid::step::Step;
use quantity::{MAX_CELLS, Place};

/// So many numbers from the first on.
#[derive(Clone, Copy)]
pub struct Span {
    pub first: u32,
    pub count: u32,
    ghost short_before: { first ≤ MAX_CELLS },
    ghost short: { count ≤ MAX_CELLS },
}

/// The rows, columns and planes of the places from which no step leads past an edge.
#[derive(Clone, Copy)]
pub struct Inner {
    pub rows: Span,
    pub columns: Span,
    pub planes: Span,
}

impl Span {
    ghost use Rattle.cell_reach.specs.Neighbourhoods.{Stays};
    ghost use Rattle.cell_reach.specs.FixedSteps.{IsIn};

    /// The numbers below a size.
    fn below(size: u32) -> Span
        requires { size ≤ MAX_CELLS }
        ensures within { (n : ℕ) → IsIn result n → n < size }
        ensures all { (n : ℕ) → n < size → IsIn result n }
    {
        Span {
            first: 0,
            count: size,
        }
    }

    /// Whether it has a number. One comparison tells: less the first, a number before it is large.
    fn has(self, number: u32) -> bool
        ensures has { IsTrue result → IsIn self number }
        ensures all { IsIn self number → IsTrue result }
    {
        number.wrapping_sub(self.first) < self.count
    }

    /// Those of its numbers to which the step can be added without passing an edge.
    fn narrowed(self, size: u32, step: i16) -> Span
        ensures within { (n : ℕ) → IsIn result n → IsIn self n }
        ensures stay { (n : ℕ) → IsIn result n → Stays size n step }
        ensures all { (n : ℕ) → IsIn self n → n < size → Stays size n step → IsIn result n }
    {
        let back = u32::from(step.min(0).unsigned_abs());
        let ahead = u32::from(step.max(0).unsigned_abs());
        let first = self.first.max(back);
        let end = (self.first + self.count).min(size.saturating_sub(ahead));
        Span {
            first,
            count: end.saturating_sub(first).min(MAX_CELLS),
        }
    }
}

impl Inner {
    ghost use Rattle.quantity.specs.declared.place.Place.{Place as AnyPlace};
    ghost use Rattle.cell_grid.specs.Watched.{IsInside};
    ghost use Rattle.cell_reach.specs.Neighbourhoods.{StaysInside};
    ghost use Rattle.cell_grid.specs.Steps.{offset_of_step};
    ghost use Rattle.cell_reach.specs.FixedSteps.{IsInner};

    /// All places of a space.
    pub fn whole(grid: Grid) -> Inner
        ensures within { (p : AnyPlace) → IsInner result p → IsInside grid p }
        ensures all { (p : AnyPlace) → IsInside grid p → IsInner result p }
    {
        Inner {
            rows: Span::below(grid.rows()),
            columns: Span::below(grid.columns()),
            planes: Span::below(grid.planes()),
        }
    }

    /// Whether a place is one of them: false exactly where it isn't.
    #[inline(always)]
    pub fn has(&self, place: Place) -> bool
        ensures { IsTrue result ↔ IsInner self.now place }
    {
        self.rows.has(place.row) && self.columns.has(place.column) && self.planes.has(place.plane)
    }

    /// Those of its places from which the step leads past no edge, and no others.
    pub fn narrowed(self, grid: Grid, step: Step) -> Inner
        ensures within { (p : AnyPlace) → IsInner result p → IsInner self p }
        ensures stay { (p : AnyPlace) → IsInner result p
            → StaysInside grid p (offset_of_step step) }
        ensures all { (p : AnyPlace) → IsInner self p → IsInside grid p
            → StaysInside grid p (offset_of_step step) → IsInner result p }
    {
        Inner {
            rows: self.rows.narrowed(grid.rows(), step.rows),
            columns: self.columns.narrowed(grid.columns(), step.columns),
            planes: self.planes.narrowed(grid.planes(), step.planes),
        }
    }
}
