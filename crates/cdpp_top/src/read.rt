// All that is read before a run: words, a model, its events, the state that it goes on from.
ghost use Rattle.std.specs.Prelude.{◌≡◌, ◌<◌, ◌≤◌, ◌^◌, None, IfOk, IsTrue, length, map, not};
ghost use Rattle.std.specs.List.{list_all};
ghost use Rattle.std.specs.String.{string_bytes};
ghost use Rattle.room_edge.specs.Only.{OnlyInput};
ghost use Rattle.model_build.specs.Settled.{classes_of};
ghost use Rattle.model_text.specs.Drawings.{drawing_refused};
ghost use Rattle.model_read.specs.Read as reading;
ghost use Rattle.model_read.specs.Read.{Reads};
ghost use Rattle.answer_model.specs.Asked.{made};
ghost use Rattle.answer_model.specs.Started.{drawing_of};
ghost use Rattle.asked_words.specs.Shown.{asked_of, source_of, IsInBounds, IsOfSize};
ghost use Rattle.model_tree.specs.Tree.{ins_of};
ghost use Rattle.sparse_cycle.specs.Feed.{AreAtInputs};
ghost use Rattle.run_loop.specs.Answers.{MayRun};
ghost use Rattle.run_loop.specs.Marked.{IsOrdered};
ghost use Rattle.asked_run.specs.Starting.{tree_on, MayStart};
ghost use Rattle.run_inputs.specs.Read.{ReadCauses};
ghost use Rattle.asked_run.specs.Stages.{StandsAt};
ghost use Rattle.asked_run.specs.Ways.{standing_in, marking_in};
ghost use Rattle.cdpp_top.specs.Boxes.{classes_by};
ghost use Rattle.cdpp_top.specs.Stages.{model_in, unread_model, ReadsInputs, ReadsWords};
ghost use Rattle.cdpp_top.specs.Stages.{ReadsWithModel, ReadsWithEvents, StartCauses};

use asked_run::{Start, read_state, release, run_at_start, runs_may_run};
use asked_words::{Asked, FramesFile, Source, read_words};
use atomic_face::{AtomicModel, Stock};
use event_list::Events;
use model_read::{ModelRefusal, ReadModel, read_model, read_model_bytes};
use model_text::made_text;
use room_edge::Room;
use run_inputs::{Unread, read_events};
use std::alloc::Global;

/// Reads what the words ask for: the words themselves, the model with these boxes, its events, and
/// the state that its run goes on from.
pub(crate) fn read<'a, R: Room, M: AtomicModel>(
    alloc: Global,
    words: &'a [String],
    boxes: Vec<M>,
    room: &mut R,
) -> Result<Start<'a, M>, Unread>
    requires few { length boxes.items < 2 ^ 32 }
    ensures reads { ReadsWords (λ x. StandsAt x.asked (standing_in x.run))
        (map string_bytes words.entry.now) (classes_by (λ m. M.held m) boxes.items)
        (R.outside room.old) (R.outside room.new) result }
    ensures causes { StartCauses (map string_bytes words.entry.now)
        (R.outside room.old) (R.outside room.new) result }
    ensures only { OnlyInput (R.outside room.old) (R.outside room.new) }
    ensures may_run { IfOk result (λ x. MayRun x.asked x.drawn (standing_in x.run)) }
    ensures ordered { IfOk result (λ x. IsOrdered x.asked (marking_in x.run)) }
{
    match read_words(alloc, words) {
        Ok(Some(asked)) => read_inputs(alloc, asked, boxes, room),
        Ok(None) => Err(Unread::Usage),
        Err(_) => Err(Unread::Memory),
    }
}

/// Reads the model that is asked for, with these boxes, its events, and the state that its run goes
/// on from.
fn read_inputs<'a, R: Room, M: AtomicModel>(
    alloc: Global,
    asked: Asked<'a>,
    boxes: Vec<M>,
    room: &mut R,
) -> Result<Start<'a, M>, Unread>
    requires few { length boxes.items < 2 ^ 32 }
    requires bounds { IsInBounds asked }
    ensures reads { ReadsInputs (λ x. StandsAt x.asked (standing_in x.run))
        (asked_of asked.entry) (classes_by (λ m. M.held m) boxes.items)
        (R.outside room.old) (R.outside room.new) result }
    ensures causes { ReadCauses (R.outside room.old) (R.outside room.new) result }
    ensures only { OnlyInput (R.outside room.old) (R.outside room.new) }
    ensures may_run { IfOk result (λ x. MayRun x.asked x.drawn (standing_in x.run)) }
    ensures ordered { IfOk result (λ x. IsOrdered x.asked (marking_in x.run)) }
{
    let Ok(mut stock) = Stock::new(alloc, boxes) else {
        return Err(Unread::Memory);
    };
    match read_source(alloc, room, &asked, &mut stock) {
        Ok(read) => read_run(alloc, room, asked, read, stock),
        Err(refusal) => Err(why_unread(refusal)),
    }
}

/// Reads the events of the model that was read, and the state that its run goes on from.
fn read_run<'a, R: Room, M: AtomicModel>(
    alloc: Global,
    room: &mut R,
    asked: Asked<'a>,
    read: ReadModel,
    stock: Stock<M>,
) -> Result<Start<'a, M>, Unread>
    requires { MayStart asked stock read.model read.routes read.drawn }
    ensures reads { ReadsWithModel (λ x. StandsAt x.asked (standing_in x.run))
        (asked_of asked.entry) (tree_on read.model stock)
        (R.outside room.old) (R.outside room.new) result }
    ensures causes { ReadCauses (R.outside room.old) (R.outside room.new) result }
    ensures only { OnlyInput (R.outside room.old) (R.outside room.new) }
    ensures may_run { IfOk result (λ x. MayRun x.asked x.drawn (standing_in x.run)) }
    ensures ordered { IfOk result (λ x. IsOrdered x.asked (marking_in x.run)) }
{
    match read_events(alloc, room, asked.given.events, &read.model.top().ins) {
        Ok(events) => start_run(alloc, room, asked, read, stock, events),
        Err(why) => {
            release(read.model, read.routes, stock);
            Err(why)
        }
    }
}

/// Makes the run of the model that was read, with these events, and reads the state that it goes
/// on from.
fn start_run<'a, R: Room, M: AtomicModel>(
    alloc: Global,
    room: &mut R,
    asked: Asked<'a>,
    read: ReadModel,
    stock: Stock<M>,
    events: Events,
) -> Result<Start<'a, M>, Unread>
    requires may { MayStart asked stock read.model read.routes read.drawn }
    requires at_inputs { AreAtInputs (ins_of (tree_on read.model stock)) events }
    ensures reads { ReadsWithEvents (λ x. StandsAt x.asked (standing_in x.run))
        (asked_of asked.entry) (tree_on read.model stock) events
        (R.outside room.old) (R.outside room.new) result }
    ensures causes { ReadCauses (R.outside room.old) (R.outside room.new) result }
    ensures only { OnlyInput (R.outside room.old) (R.outside room.new) }
    ensures may_run { IfOk result (λ x. MayRun x.asked x.drawn (standing_in x.run)) }
    ensures ordered { IfOk result (λ x. IsOrdered x.asked (marking_in x.run)) }
{
    runs_may_run();
    let ReadModel {
        model,
        routes,
        drawn,
    } = read;
    let Ok(at_start) = run_at_start(alloc, &asked, model, routes, stock, events) else {
        return Err(Unread::Memory);
    };
    match read_state(alloc, room, asked.given.state, at_start, asked.end) {
        Ok(run) => Ok(Start { asked, drawn, run }),
        Err(why) => Err(why),
    }
}

/// Why there is nothing to start from, where no model is read.
fn why_unread(refusal: ModelRefusal) -> Unread
    ensures { result ≡ unread_model refusal }
{
    match refusal {
        ModelRefusal::Missing(name) => Unread::Missing(name),
        ModelRefusal::ReadFault(name) => Unread::ReadFault(name),
        ModelRefusal::Refused { line, kind } => Unread::Model { line, kind },
        ModelRefusal::Memory => Unread::Memory,
    }
}

/// The model that is asked for: of a file, or made.
fn read_source<R: Room, M: AtomicModel>(
    alloc: Global,
    room: &mut R,
    asked: &Asked<'_>,
    stock: &mut Stock<M>,
) -> Result<ReadModel, ModelRefusal>
    requires size { IsOfSize asked.now.source }
    requires free { IsTrue (list_all (λ s. not s.taken) stock.old) }
    ensures reads { let drawing = drawing_of (asked_of asked.now).frames in
        Reads (model_in (source_of asked.now.source) (classes_of stock.old) drawing) drawing
        stock.new result (R.outside room.old) (R.outside room.new) }
    ensures drawn { IfOk result (λ read. drawing_refused (drawing_of (asked_of asked.now).frames)
        (tree_on read.model stock.new) ≡ None) }
{
    let frames = frames_in(asked);
    match asked.source {
        Source::File(name) => read_model(alloc, room, name, stock, frames),
        Source::Made(size) => read_made(alloc, room, size, stock, frames),
    }
}

/// The model that is made with so many rows and columns.
fn read_made<R: Room, M: AtomicModel>(
    alloc: Global,
    room: &mut R,
    size: u32,
    stock: &mut Stock<M>,
    frames: Option<&FramesFile<'_>>,
) -> Result<ReadModel, ModelRefusal>
    requires least { 5 ≤ size }
    requires most { size ≤ 1000 }
    requires free { IsTrue (list_all (λ s. not s.taken) stock.old) }
    ensures reads { let drawing = reading.drawing_of frames.entry in
        Reads (model_in (made size) (classes_of stock.old) drawing) drawing
        stock.new result (R.outside room.old) (R.outside room.new) }
    ensures drawn { IfOk result (λ read. drawing_refused (reading.drawing_of frames.entry)
        (tree_on read.model stock.new) ≡ None) }
{
    let mut text: Vec<u8> = Vec::new(alloc);
    let Ok(()) = made_text(size, &mut text) else {
        return Err(ModelRefusal::Memory);
    };
    read_model_bytes(alloc, room, &text, stock, frames)
}

/// The file of frames, if there is to be one.
fn frames_in<'a, 'w>(asked: &'a Asked<'w>) -> Option<&'a FramesFile<'w>>
    ensures { reading.drawing_of result ≡ drawing_of (asked_of asked.entry.now).frames }
{
    match &asked.frames {
        None => None,
        Some(frames) => Some(frames),
    }
}
