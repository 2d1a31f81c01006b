// The state that a run goes on from.
ghost use Rattle.std.specs.Prelude.{◌≡◌, Some, None, IfSome, IfOk};
ghost use Rattle.room_edge.specs.Only.{OnlyInput};
ghost use Rattle.asked_words.specs.Shown.{text_of_name};
ghost use Rattle.asked_run.specs.Stages.{GoesOnBy, ReadsToldState};
ghost use Rattle.run_inputs.specs.Read.{ReadCauses};
ghost use Rattle.asked_run.specs.Starting.{IsResumed, MayGoOn};
ghost use Rattle.asked_run.specs.Ways.{standing_in, marking_in, stands_read};

use crate::way::Way;
use atomic_face::AtomicModel;
use flat_run::FlatRun;
use quantity::{MAX_LOG_BYTES, Time};
use room_edge::Room;
use run_inputs::text::read_text;
use run_inputs::unread::Unread;
use run_leaves::Leave;
use state_file::load_state;
use std::alloc::Global;
use text_forms::StateRefusal;
use time_queue::LinkedQueue;
use tree_serve::ServedRun;

// The most bytes that a file of a state may have.
const LONGEST: u32 = MAX_LOG_BYTES as u32;

/// The run goes on from the state of the file of this name, where one is named: never one whose
/// messages are served in an order.
pub fn read_state<R: Room, M: AtomicModel>(
    alloc: Global,
    room: &mut R,
    name: Option<&str>,
    run: Way<FlatRun<LinkedQueue, M>, ServedRun<M>>,
    end: Time,
) -> Result<Way<FlatRun<LinkedQueue, M>, ServedRun<M>>, Unread>
    requires may_go_on { MayGoOn (standing_in run) }
    requires unserved { IfSome (marking_in run) (λ m. text_of_name name ≡ None) }
    ensures reads { ReadsToldState (text_of_name name.entry) (standing_in run) end
        (R.outside room.old) (R.outside room.new) (stands_read result) }
    ensures causes { ReadCauses (R.outside room.old) (R.outside room.new) result }
    ensures only { OnlyInput (R.outside room.old) (R.outside room.new) }
    ensures goes_on { IfOk result (λ w.
        IsResumed (text_of_name name.entry) (standing_in run) end (standing_in w)) }
    ensures marked { IfOk result (λ w. marking_in w ≡ marking_in run) }
{
    match run {
        Way::Flat(flat) => match read_flat_state(alloc, room, name, flat, end) {
            Ok(loaded) => Ok(Way::Flat(loaded)),
            Err(why) => Err(why),
        },
        Way::Served(served) => Ok(Way::Served(served)),
    }
}

/// The flat run goes on from the state of the file of this name, where one is named.
fn read_flat_state<R: Room, M: AtomicModel>(
    alloc: Global,
    room: &mut R,
    name: Option<&str>,
    run: FlatRun<LinkedQueue, M>,
    end: Time,
) -> Result<FlatRun<LinkedQueue, M>, Unread>
    requires { MayGoOn run }
    ensures reads { ReadsToldState (text_of_name name.entry) run end
        (R.outside room.old) (R.outside room.new) result }
    ensures causes { ReadCauses (R.outside room.old) (R.outside room.new) result }
    ensures only { OnlyInput (R.outside room.old) (R.outside room.new) }
    ensures goes_on { IfOk result (IsResumed (text_of_name name.entry) run end) }
{
    match name {
        None => Ok(run),
        Some(name) => read_state_file(alloc, room, name, run, end),
    }
}

/// The run goes on from the state of the file of this name.
fn read_state_file<R: Room, M: AtomicModel>(
    alloc: Global,
    room: &mut R,
    name: &str,
    run: FlatRun<LinkedQueue, M>,
    end: Time,
) -> Result<FlatRun<LinkedQueue, M>, Unread>
    requires { MayGoOn run }
    ensures reads { ReadsToldState (Some name.now) run end
        (R.outside room.old) (R.outside room.new) result }
    ensures causes { ReadCauses (R.outside room.old) (R.outside room.new) result }
    ensures only { OnlyInput (R.outside room.old) (R.outside room.new) }
    ensures goes_on { IfOk result (IsResumed (Some name.now) run end) }
{
    match read_text(alloc, room, name, LONGEST) {
        Ok(Some(text)) => go_on(alloc, &text, run, end),
        Ok(None) => {
            run.leave();
            Err(Unread::State(StateRefusal::TooLarge(0)))
        }
        Err(why) => {
            run.leave();
            Err(why)
        }
    }
}

/// The run goes on from the state that these bytes give.
fn go_on<M: AtomicModel>(
    alloc: Global,
    bytes: &[u8],
    run: FlatRun<LinkedQueue, M>,
    end: Time,
) -> Result<FlatRun<LinkedQueue, M>, Unread>
    requires { MayGoOn run }
    ensures { GoesOnBy bytes.now run end result }
{
    match load_state(alloc, bytes, run, end) {
        Ok((loaded, _)) => Ok(loaded),
        Err(refusal) => Err(Unread::State(refusal)),
    }
}
