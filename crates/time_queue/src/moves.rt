// Moves carried out on any queue: one statement for all queues.
ghost use Rattle.std.specs.Prelude.{◌≡◌, ◌≤◌, [], length, map, All, IfOk, OnOk, OnErr};
ghost use Rattle.std.specs.Vec.{vec_capacity};
ghost use Rattle.time_queue.specs.Waiting.{least_time};
ghost use Rattle.time_queue.specs.Replay.{IsMoveOf, times_after_move, taken_by, after, replies_of, AreBegun};

use crate::queue::TimeQueue;
use quantity::{OutOfMemory, Time};
use std::alloc::{AllocError, Global};

/// A call that changes a queue.
#[derive(Clone, Copy)]
pub enum Move {
    /// The leaf waits for this time.
    Set(u32, Time),
    /// The leaf waits for no time.
    Clear(u32),
    /// All leaves that wait for this time are taken.
    TakeAll(Time),
}

/// What a queue answers to a move: the leaves that it took, rising, and the least time then.
#[derive(Drop)]
pub struct Reply {
    pub taken: Vec<u32>,
    pub least: Option<Time>,
}

/// Carries out moves in turn on a queue of so many leaves. Every queue answers as a plain list of
/// times does, and holds what that list holds then. Where memory is refused, some first moves are
/// carried out whole, and no others.
pub fn replay<Q: TimeQueue>(
    alloc: Global,
    queue: &mut Q,
    leaves: usize,
    moves: &[Move],
) -> Result<Vec<Reply>, OutOfMemory>
    requires leaves { length (Q.waiting queue.old) ≡ leaves }
    requires moves { All (IsMoveOf leaves) moves.now }
    ensures contents { OnOk result (Q.waiting queue.new ≡ after moves.now (Q.waiting queue.old)) }
    ensures replies { IfOk result
        (λ rs. map (λ r. (r.taken.items, r.least)) rs.items
        ≡ replies_of moves.now (Q.waiting queue.old)) }
    ensures err { OnErr result (AreBegun moves.now (Q.waiting queue.old) (Q.waiting queue.new)) }
{
    let mut replies = Vec::new(alloc);
    for step in moves {
        let reply = carry_out(alloc, queue, leaves, step)?;
        replies.push(reply).map_err(AllocError::from)?;
    }
    Ok(replies)
}

fn carry_out<Q: TimeQueue>(
    alloc: Global,
    queue: &mut Q,
    leaves: usize,
    step: &Move,
) -> Result<Reply, OutOfMemory>
    requires leaves { length (Q.waiting queue.old) ≡ leaves }
    requires within { IsMoveOf leaves step.now }
    ensures leaves { length (Q.waiting queue.new) ≡ leaves }
    ensures contents { OnOk result
        (Q.waiting queue.new ≡ times_after_move step.now (Q.waiting queue.old)) }
    ensures taken { IfOk result (λ r. r.taken.items ≡ taken_by step.now (Q.waiting queue.old)) }
    ensures least { IfOk result
        (λ r. r.least ≡ least_time (times_after_move step.now (Q.waiting queue.old))) }
    ensures err { OnErr result (Q.waiting queue.new ≡ Q.waiting queue.old) }
{
    let mut taken = Vec::with_capacity(alloc, leaves)?;
    apply(queue, step, &mut taken);
    let least = queue.least();
    Ok(Reply { taken, least })
}

fn apply<Q: TimeQueue>(queue: &mut Q, step: &Move, taken: &mut Vec<u32>)
    requires within { IsMoveOf (length (Q.waiting queue.old)) step.now }
    requires empty { taken.old.items ≡ [] }
    requires room { length (Q.waiting queue.old) ≤ vec_capacity taken.old }
    ensures contents { Q.waiting queue.new ≡ times_after_move step.now (Q.waiting queue.old) }
    ensures taken { taken.new.items ≡ taken_by step.now (Q.waiting queue.old) }
{
    match *step {
        Move::Set(leaf, at) => queue.set(leaf, at),
        Move::Clear(leaf) => queue.clear(leaf),
        Move::TakeAll(at) => queue.take_all_at(at, taken),
    }
}
