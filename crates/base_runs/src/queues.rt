// Each queue against replies worked out by hand.
ghost use Rattle.std.specs.Prelude.{◌≡◌, length};

use crate::moves::moves_carried_out;
use std::process::Abort;
use std::test::Fail;
use time_queue::{HeapQueue, LinkedQueue, Reply, SortedQueue, TimeQueue};

/// How many leaves each reply has, and which time is the least then.
const WANTED: [(usize, Option<u32>); 11] = [
    (0, Some(7)),
    (0, Some(7)),
    (0, Some(7)),
    (0, Some(7)),
    (2, Some(7)),
    (0, Some(7)),
    (0, Some(7)),
    (0, Some(7)),
    (0, Some(7)),
    (1, Some(30)),
    (2, None),
];

/// The time of a reply.
fn least(reply: &Reply) -> Option<u32> {
    match reply.least {
        Some(time) => Some(time.ms()),
        None => None,
    }
}

fn replies_are_right(rt: &impl Abort, replies: &[Reply]) {
    assert_eq!(rt; replies.len(), WANTED.len());
    for (reply, wanted) in replies.iter().zip(WANTED.iter()) {
        assert_eq!(rt; (reply.taken.len(), least(reply)), *wanted);
    }
    assert_eq!(rt;
        (
            replies[4].taken.as_slice(),
            replies[9].taken.as_slice(),
            replies[10].taken.as_slice()
        ),
        ([1, 2].as_slice(), [0].as_slice(), [1, 4].as_slice())
    );
}

/// Carries the moves out, and compares the replies.
fn goes<Q: TimeQueue>(rt: &(impl Abort + AllocGlobal), queue: &mut Q) -> Result<(), Fail>
    requires { length (Q.waiting queue.old) ≡ 5 }
{
    let replies = moves_carried_out(rt.alloc(), queue)?;
    replies_are_right(rt, replies.as_slice());
    Ok(())
}

#[test]
fn a_sorted_queue_replies(rt: HostRuntime) -> Result<(), Fail> {
    let mut queue = SortedQueue::with_leaves(rt.alloc(), 5)?;
    goes(&rt, &mut queue)
}

#[test]
fn a_heap_replies(rt: HostRuntime) -> Result<(), Fail> {
    let mut queue = HeapQueue::with_leaves(rt.alloc(), 5)?;
    goes(&rt, &mut queue)
}

#[test]
fn lists_reply(rt: HostRuntime) -> Result<(), Fail> {
    let mut queue = LinkedQueue::with_leaves(rt.alloc(), 5)?;
    goes(&rt, &mut queue)
}
