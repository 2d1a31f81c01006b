// The numbers of the rule sets of cells.
ghost use Rattle.std.specs.Prelude.{◌≡◌, replicate, slice_index_or};

use std::alloc::Global;
use std::marker::Model;

/// For each cell the number of its rule set. Where all cells go by the first set, as in a group
/// without zones, no number is kept. It is seen as the numbers.
#[derive(Drop)]
pub(crate) struct SetNumbers {
    cells: u32,
    kept: Vec<usize>,
}

impl Model for SetNumbers {
    ghost use Rattle.std.specs.Prelude.{ℕ, List};
    ghost use Rattle.cell_engine.specs.Numbers.{numbers_of};

    ghost Value = { List ℕ };

    ghost view = { λ s. numbers_of s.cells s.kept.items };
}

impl SetNumbers {
    /// The first set for each of so many cells.
    pub(crate) fn first(alloc: Global, cells: u32) -> SetNumbers
        ensures { result ≡ replicate cells 0 }
    {
        SetNumbers {
            cells,
            kept: Vec::new(alloc),
        }
    }

    /// These numbers.
    pub(crate) fn of(numbers: Vec<usize>) -> SetNumbers
        ensures { result ≡ numbers.items }
    {
        SetNumbers {
            cells: 0,
            kept: numbers,
        }
    }

    /// The number of a cell's rule set.
    #[inline(always)]
    pub(crate) fn at(&self, cell: u32) -> usize
        ensures { result ≡ slice_index_or self.now cell 0 }
    {
        number_at(&self.kept, cell as usize)
    }
}

/// The number that stands there, or 0.
#[inline(always)]
fn number_at(numbers: &[usize], place: usize) -> usize
    ensures { result ≡ slice_index_or numbers.now place 0 }
{
    match numbers.get(place) {
        Some(number) => *number,
        None => 0,
    }
}
