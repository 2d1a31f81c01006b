// The program.
ghost use Rattle.std.specs.Prelude.{◌≡◌, ◌<◌, ◌^◌, length, map};
ghost use Rattle.std.specs.String.{string_bytes};
ghost use Rattle.answer_model.specs.declared.status.Status.TheVariants.{ReadFault};
ghost use Rattle.answer_model.specs.FaultsAnswered.{AnswersFaults};
ghost use Rattle.answer_model.specs.LastPieces.{WritesNothing};
ghost use Rattle.answer_model.specs.Programs.{CdppEnds, CdppCauses};
ghost use Rattle.cdpp_top.specs.Boxes.{classes_by};
ghost use Rattle.cdpp_top.specs.Told.{CostsAtMost, LeavesTold};

use crate::read::read;
use asked_run::run::run;
use asked_words::Status;
use atomic_face::AtomicModel;
use cell_engine::Steps;
use room_edge::Room;
use run_inputs::tell_unread;
use std::alloc::Global;
use std::sync::ledger::Ledger;

/// Runs the program for the words of a command line, of which the first is its name, with these
/// boxes for atomic components. Answers what a process ends with: the run is done, and its end is
/// shown; the words are refused; a file is missing; a read failed; a write failed; the model, the
/// events or the state that the run is to go on from are refused; a cell or a box stops the run; an
/// instant has too many cycles; want of memory.
pub fn cdpp<R: Room, M: AtomicModel, L: Ledger>(
    alloc: Global,
    words: &[String],
    boxes: Vec<M>,
    room: &mut R,
    steps: &mut Steps<L>,
) -> Status
    requires few { length boxes.items < 2 ^ 32 }
    // Where the files are told: the answer whole, or what a fault or want of memory leaves of it,
    // with the line of that fault.
    ensures ends { CdppEnds (map string_bytes words.now) (classes_by (λ m. M.held m) boxes.items)
        (R.outside room.old) (R.outside room.new) result }
    // Over every room: each status only where its cause was counted, and that of refused words just
    // where they are refused and the complaint didn't fail.
    ensures causes { CdppCauses (map string_bytes words.now)
        (R.outside room.old) (R.outside room.new) result }
    ensures nothing { result ≡ ReadFault
        → WritesNothing (R.outside room.old) (R.outside room.new) }
    // Over every room: each fault that was counted shows in the status.
    ensures faults { AnswersFaults (R.outside room.old) (R.outside room.new) result }
    // At most the visits that the reference run of what is asked for may cost: each leaf once, and
    // then in each cycle only for the values given and for the leaves that move; and each leaf once
    // more for a state that is read, and for one that is saved. Not where messages are served in an
    // order.
    ensures visits { CostsAtMost (map string_bytes words.now)
        (classes_by (λ m. M.held m) boxes.items) (R.outside room.old) steps.old steps.new }
    // However the run ends, some number of its cycles was begun: the files have pieces of these, in
    // their order, and the visits are at most those that these cost. Where a write failed, its file
    // is named, and behind that piece nothing is written and no cycle is begun. Nothing of it is at
    // a status that no run ends with.
    ensures leaves { LeavesTold (map string_bytes words.now)
        (classes_by (λ m. M.held m) boxes.items)
        (R.outside room.old) (R.outside room.new) steps.old steps.new result }
{
    match read(alloc, words, boxes, room) {
        Ok(start) => run(alloc, room, start, steps),
        Err(why) => tell_unread(alloc, room, why),
    }
}
