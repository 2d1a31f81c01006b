// The cells of a group as a block of leaves that stand one after another.
ghost use Rattle.std.specs.Prelude.{◌≡◌, ℕ, ◌+◌, ◌-◌, ◌<◌, ◌≤◌, ◌^◌, Some, [], ◌∷◌, ◌++◌};
ghost use Rattle.std.specs.Prelude.{length, map, slice_get, OnOk, OnErr, IfOk, IsTrue};
ghost use Rattle.std.specs.List.{All};
ghost use Rattle.model_tree.specs.Stands.{group_of};
ghost use Rattle.model_leaves.specs.Leaves.{AtLeaf, IsLeafOf, OfTree};
ghost use Rattle.quantity.specs.Bytes.{has_number};
ghost use Rattle.model_leaves.specs.Grouped.{AreGroupsOf};
ghost use Rattle.run_leaves.specs.Watching.{watches_in, end_of, block_of, IsSeatOf, AreSeated};

use crate::repeats::Repeats;
use cell_reach::Reach;
use model_leaves::{LeafAt, Model as Tree};
use model_tree::CellGroup;
use quantity::{MaybeNumber, OutOfMemory};
use std::alloc::{AllocError, Global};

/// The cells of a group: the number of the first one's leaf, the most cells that watch one of
/// them, and which do.
#[derive(Drop)]
pub(crate) struct Block {
    first: u32,
    most: usize,
    reach: Reach,
}

/// The number of the block that a leaf is in, if it is a cell, and whether the leaf before it is known
/// to have the same.
#[derive(Clone, Copy)]
pub(crate) struct Seat {
    pub number: MaybeNumber,
    pub again: bool,
}

/// Where a leaf is. A group's first cell begins a block, and each other cell is in that of the leaf
/// before it.
#[inline(always)]
pub(crate) fn seat_at(
    alloc: Global,
    model: &Tree,
    groups: &[&CellGroup],
    leaf: u32,
    seats: &Repeats<MaybeNumber>,
    blocks: &mut Vec<Block>,
) -> Result<Seat, OutOfMemory>
    requires groups { AreGroupsOf model.now groups.now }
    requires leaf { IsLeafOf model.now leaf }
    requires long { length seats.now ≡ leaf }
    requires few { length blocks.old.items ≤ leaf }
    requires seated { OfTree model.now (λ tree. AreSeated tree seats.now blocks.old.items) }
    ensures few { length blocks.new.items ≤ leaf + 1 }
    ensures seated { OfTree model.now (λ tree. AreSeated tree seats.now blocks.new.items) }
    ensures seat { IfOk result (λ seat.
        AtLeaf model.now leaf (λ l. IsSeatOf blocks.new.items l seat.number)) }
    ensures some { IfOk result (λ seat. IsTrue seat.again → 0 < length seats.now) }
    ensures last { IfOk result (λ seat. IsTrue seat.again
        → slice_get seats.now (length seats.now - 1) ≡ Some seat.number) }
{
    match model.leaf_at(leaf) {
        LeafAt::Atomic(_) => Ok(Seat {
            number: MaybeNumber::none(),
            again: false,
        }),
        LeafAt::Cell { group, cell } => {
            if cell == 0 {
                let number = begin(alloc, leaf, groups[group as usize], blocks)?;
                return Ok(Seat {
                    number: MaybeNumber::some(number),
                    again: false,
                });
            }
            Ok(Seat {
                number: seats.at(leaf - 1),
                again: true,
            })
        }
    }
}

/// Begins the block of a group, and gives its number.
#[inline(never)]
fn begin(
    alloc: Global,
    first: u32,
    group: &CellGroup,
    blocks: &mut Vec<Block>,
) -> Result<u32, OutOfMemory>
    requires { length blocks.old.items ≤ first }
    ensures number { IfOk result (λ number. number ≡ length blocks.old.items) }
    ensures begun { OnOk result
        (blocks.new.items ≡ blocks.old.items ++ block_of (group_of group.now) first ∷ []) }
    ensures err { OnErr result (blocks.new.items ≡ blocks.old.items) }
{
    let number = blocks.len() as u32;
    let most = group.offsets.len();
    let reach = Reach::new(alloc, group.grid, &group.offsets)?;
    let block = Block { first, most, reach };
    blocks.push(block).map_err(AllocError::from)?;
    Ok(number)
}

impl Block {
    /// Puts the leaves that watch a leaf of this block, in place of what the list holds. One that
    /// holds as many from before is only written over. Where memory is refused, it stays as it was.
    pub(crate) fn put_watchers(&self, leaf: u32, into: &mut Vec<u32>) -> Result<(), OutOfMemory>
        requires begun { self.now.first ≤ leaf }
        requires inside { leaf < end_of self.now }
        requires short { end_of self.now ≤ 2 ^ 32 }
        requires room { length self.now.reach.offsets ≤ self.now.most }
        ensures within { OnOk result (All (λ k. k < end_of self.now) into.new.items) }
        ensures watch { OnOk result ((k : ℕ) → has_number into.new.items k
            ≡ watches_in (Some self.now) k leaf) }
        ensures err { OnErr result (into.new.items ≡ into.old.items) }
    {
        into.reserve(self.most)?;
        self.reach.watchers(leaf - self.first, into);
        move_on(into, self.first);
        Ok(())
    }
}

/// Adds to each number. In many models the cells are the first leaves, and nothing is added.
fn move_on(numbers: &mut [u32], by: u32)
    requires { All (λ k. by + k < 2 ^ 32) numbers.old }
    ensures { numbers.new ≡ map (λ k. by + k) numbers.old }
{
    if by == 0 {
        return;
    }
    for number in numbers.iter_mut() {
        *number += by;
    }
}
