// Who watches whom.
ghost use Rattle.std.specs.Prelude.{◌≡◌, ◌+◌, ◌-◌, ◌<◌, ◌^◌, Some, ◌++◌, [], ◌∷◌, length, slice_get, IsTrue, IfOk, OnOk};
ghost use Rattle.model_leaves.specs.Grouped.{AreGroupsOf};
ghost use Rattle.model_leaves.specs.Leaves.{OfTree};
ghost use Rattle.model_tree.specs.Tree.{leaf_count};
ghost use Rattle.run_leaves.specs.Watching.{AreSeated};

use crate::blocks::{Block, Seat, seat_at};
use crate::repeats::Repeats;
use cycle_steps::wake::Watched;
use model_leaves::Model as Tree;
use model_tree::CellGroup;
use quantity::{MaybeNumber, OutOfMemory};
use std::alloc::Global;
use std::marker::Model;

/// The leaves that watch each leaf: of a cell those cells of its group that have it as a neighbour,
/// found by fixed differences. It is seen as the number of the block that each leaf is in, and the
/// blocks.
#[derive(Drop)]
pub struct Watchers {
    seats: Repeats<MaybeNumber>,
    blocks: Vec<Block>,
}

impl Model for Watchers {
    ghost use Rattle.std.specs.Prelude.{◌<◌, ◌^◌, length};
    ghost use Rattle.run_leaves.specs.Watching.{Watching, StandInBlocks};

    ghost Value = { Watching };

    ghost view = { λ w. record { seats = w.seats; blocks = w.blocks.items } };

    ghost invariant = { λ w. (length w.seats < 2 ^ 32) × StandInBlocks w.seats w.blocks.items };
}

impl Watchers {
    ghost use Rattle.run_leaves.specs.Watching.{IsWatchingOf};

    /// The watchers of a model. It goes through the leaves once.
    #[inline(never)]
    pub fn new(alloc: Global, model: &Tree) -> Result<Watchers, OutOfMemory>
        ensures { IfOk result (λ w. OfTree model.now (λ tree. IsWatchingOf tree w)) }
    {
        let groups = model.all_groups(alloc)?;
        let mut seats = Repeats::new(alloc);
        let mut blocks = Vec::new(alloc);
        seat_all(alloc, model, &groups, &mut seats, &mut blocks)?;
        Ok(Watchers { seats, blocks })
    }
}

/// Seats the leaves of a model one after another, and begins the blocks of its groups.
fn seat_all(
    alloc: Global,
    model: &Tree,
    groups: &[&CellGroup],
    seats: &mut Repeats<MaybeNumber>,
    blocks: &mut Vec<Block>,
) -> Result<(), OutOfMemory>
    requires groups { AreGroupsOf model.now groups.now }
    requires seats { seats.old ≡ [] }
    requires blocks { blocks.old.items ≡ [] }
    ensures few { OnOk result (length seats.new < 2 ^ 32) }
    ensures long { OnOk result (OfTree model.now (λ tree. length seats.new ≡ leaf_count tree)) }
    ensures seated { OnOk result
        (OfTree model.now (λ tree. AreSeated tree seats.new blocks.new.items)) }
{
    for leaf in 0..model.leaves() {
        let seat = seat_at(alloc, model, groups, leaf, seats, blocks)?;
        add_seat(seats, seat)?;
    }
    Ok(())
}

/// A further leaf is there.
#[inline(always)]
fn add_seat(seats: &mut Repeats<MaybeNumber>, seat: Seat) -> Result<(), OutOfMemory>
    requires few { length seats.old + 1 < 2 ^ 32 }
    requires some { IsTrue seat.again → 0 < length seats.old }
    requires last { IsTrue seat.again
        → slice_get seats.old (length seats.old - 1) ≡ Some seat.number }
    ensures { OnOk result (seats.new ≡ seats.old ++ seat.number ∷ []) }
{
    let number = seat.number;
    let again = is_again(seats, number, seat.again);
    seats.push(number, again)
}

/// Whether the last leaf is there, which is only looked up where it isn't known.
#[inline(always)]
fn is_again(seats: &Repeats<MaybeNumber>, seat: MaybeNumber, known: bool) -> bool
    requires some { IsTrue known → 0 < length seats.now }
    requires last { IsTrue known → slice_get seats.now (length seats.now - 1) ≡ Some seat }
    ensures some { IsTrue result → 0 < length seats.now }
    ensures last { IsTrue result → slice_get seats.now (length seats.now - 1) ≡ Some seat }
{
    if known { true } else { is_last(seats, seat) }
}

/// Whether the last leaf has this number of a block, or none.
#[inline(always)]
fn is_last(seats: &Repeats<MaybeNumber>, seat: MaybeNumber) -> bool
    ensures some { IsTrue result → 0 < length seats.now }
    ensures last { IsTrue result → slice_get seats.now (length seats.now - 1) ≡ Some seat }
{
    let count = seats.leaves();
    if count == 0 {
        return false;
    }
    is_same(seats.at(count - 1), seat)
}

#[inline(always)]
fn is_same(one: MaybeNumber, other: MaybeNumber) -> bool
    ensures { IsTrue result → one ≡ other }
{
    let Some(number) = one.get() else {
        return other.get().is_none();
    };
    let Some(before) = other.get() else {
        return false;
    };
    number == before
}

impl Watched for Watchers {
    ghost use Rattle.std.specs.Prelude.{length};
    ghost use Rattle.run_leaves.specs.Watching.{watches_by};

    ghost count = { λ w. length w.seats };

    ghost watches = { λ w k l. watches_by w k l };

    fn watchers_of(&self, leaf: u32, into: &mut Vec<u32>) -> Result<(), OutOfMemory> {
        if self.seats.leaves() <= leaf {
            into.clear();
            return Ok(());
        }
        match self.seats.at(leaf).get() {
            None => {
                into.clear();
                Ok(())
            }
            Some(number) => self.blocks[number as usize].put_watchers(leaf, into),
        }
    }
}
