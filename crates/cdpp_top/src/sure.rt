// Over a room that never fails, what comes is the answer.
ghost use Rattle.std.specs.Prelude.{◌<◌, ◌^◌, length, map};
ghost use Rattle.std.specs.String.{string_bytes};
ghost use Rattle.room_edge.specs.Sure.{sure_outside};
ghost use Rattle.cdpp_top.specs.Boxes.{classes_by};
ghost use Rattle.cdpp_top.specs.Told.{CostsAtMost, WritesAnswer};

use crate::program::cdpp;
use asked_words::Status;
use atomic_face::AtomicModel;
use cell_engine::Steps;
use room_edge::SureRoom;
use std::alloc::Global;
use std::sync::ledger::Ledger;

/// Runs the program over a room that never fails: what comes is the answer, but for want of memory,
/// with no more visits than the reference run may cost, where they are counted.
pub fn cdpp_surely<L: Ledger>(
    alloc: Global,
    words: &[String],
    boxes: Vec<Box<dyn AtomicModel>>,
    room: &mut SureRoom,
    steps: &mut Steps<L>,
) -> Status
    requires few { length boxes.items < 2 ^ 32 }
    ensures writes { WritesAnswer (map string_bytes words.now)
        (classes_by (λ b. (AtomicModel-box b).held b.value) boxes.items)
        (sure_outside room.old) (sure_outside room.new) result }
    ensures visits { CostsAtMost (map string_bytes words.now)
        (classes_by (λ b. (AtomicModel-box b).held b.value) boxes.items)
        (sure_outside room.old) steps.old steps.new }
{
    cdpp(alloc, words, boxes, room, steps)
}
