// What queues are led through.
ghost use Rattle.std.specs.Prelude.{◌≡◌, length};

use crate::times::time;
use quantity::OutOfMemory;
use std::alloc::Global;
use time_queue::{Move, Reply, TimeQueue, replay};

/// A preempted time, a time that is cleared, a later time taken before an earlier one, and leaves
/// that are set out of order.
pub(crate) fn moves_carried_out<Q: TimeQueue>(
    alloc: Global,
    queue: &mut Q,
) -> Result<Vec<Reply>, OutOfMemory>
    requires { length (Q.waiting queue.old) ≡ 5 }
{
    let [seven, nine, thirty] = [time(7), time(9), time(30)];
    let moves = [
        Move::Set(2, seven),
        Move::Set(0, seven),
        Move::Set(1, nine),
        Move::Set(2, nine),
        Move::TakeAll(nine),
        Move::Set(4, thirty),
        Move::Set(3, thirty),
        Move::Set(1, thirty),
        Move::Clear(3),
        Move::TakeAll(seven),
        Move::TakeAll(thirty),
    ];
    replay(alloc, queue, 5, &moves)
}
