// How a run ended, and what is told of it.
ghost use Rattle.std.specs.Prelude.{◌≡◌, ◌++◌, IfOk};
ghost use Rattle.model_leaves.specs.Leaves.{OfTree};
ghost use Rattle.text_forms.specs.Lines.{line_with_end};
ghost use Rattle.answer_model.specs.declared.status.Status.TheVariants as exit;
ghost use Rattle.answer_model.specs.Endings.{Says, ShowsEnd};
ghost use Rattle.answer_model.specs.RunEnd.{many_line, stopped_at};
ghost use Rattle.asked_words.specs.Shown.{asked_of};
ghost use Rattle.run_loop.specs.Ends.{SaysEnding, SaysStop, OfLastLine, mark_behind, bad_delay_text};

use crate::going::Going;
use crate::lines::{delay_line, end_line, made_line, many_cycles_line, put_mark, stopped_line};
use asked_words::{Asked, Source, Status, complain, show};
use model_leaves::Model;
use quantity::{OutOfMemory, Time, Value};
use room_edge::Room;
use run_model::Stop;
use std::alloc::Global;

/// The run is done, or it stopped.
#[derive(Clone, Copy)]
pub(crate) enum Ending {
    Done,
    Stopped(Stop),
}

/// Tells how a run ended: shows its last line where it is done, with the mark of its order of
/// service, if it has one, and else complains of the stop.
pub(crate) fn tell_ending<R: Room>(
    alloc: Global,
    room: &mut R,
    asked: &Asked<'_>,
    model: &Model,
    going: &Going,
    mark: Option<u32>,
    ending: Ending,
) -> Status
    // For the cycles and the verdict of the run.
    ensures { OfTree model.now
        (λ tree. SaysEnding ending mark (asked_of asked.now) going.now tree
        (R.outside room.old) (R.outside room.new) result) }
{
    match ending {
        Ending::Done => show_done(alloc, room, asked, model, going, mark),
        Ending::Stopped(stop) => complain_stop(alloc, room, asked, model, stop),
    }
}

/// Shows the last line of a run that is done.
fn show_done<R: Room>(
    alloc: Global,
    room: &mut R,
    asked: &Asked<'_>,
    model: &Model,
    going: &Going,
    mark: Option<u32>,
) -> Status
    ensures { OfTree model.now (λ tree. OfLastLine (asked_of asked.now) going.now tree
        (λ line. ShowsEnd (line_with_end (line ++ mark_behind mark)) exit.Done
        (R.outside room.old) (R.outside room.new) result)) }
{
    let Ok(line) = marked_line(alloc, asked, model, going, mark) else {
        return Status::NoMemory;
    };
    show(alloc, room, &line)
}

/// The last line of a run that is done, with the mark of its order of service, if it has one.
fn marked_line(
    alloc: Global,
    asked: &Asked<'_>,
    model: &Model,
    going: &Going,
    mark: Option<u32>,
) -> Result<Vec<u8>, OutOfMemory>
    ensures { IfOk result (λ line. OfTree model.now (λ tree.
        OfLastLine (asked_of asked.now) going.now tree
        (λ last. line.items ≡ line_with_end (last ++ mark_behind mark)))) }
{
    let mut line = done_line(alloc, asked, model, going)?;
    put_mark(alloc, mark, &mut line)?;
    line.extend_from_slice(b"\n")?;
    Ok(line)
}

/// The last line of a run that is done, without mark and line feed.
fn done_line(
    alloc: Global,
    asked: &Asked<'_>,
    model: &Model,
    going: &Going,
) -> Result<Vec<u8>, OutOfMemory>
    ensures { IfOk result (λ line. OfTree model.now (λ tree.
        OfLastLine (asked_of asked.now) going.now tree (λ last. line.items ≡ last))) }
{
    let Source::Made(size) = asked.source else {
        return end_line(alloc, asked.end, going.cycles);
    };
    // A run of a made model counts from its start on, so there is always something to tell.
    let Some(counted) = &going.counted else {
        return Err(OutOfMemory);
    };
    made_line(alloc, size, model.leaves(), going.cycles, counted)
}

/// Complains of a stop. For want of memory there is no line.
fn complain_stop<R: Room>(
    alloc: Global,
    room: &mut R,
    asked: &Asked<'_>,
    model: &Model,
    stop: Stop,
) -> Status
    ensures { OfTree model.now (λ tree. SaysStop stop (asked_of asked.now) tree
        (R.outside room.old) (R.outside room.new) result) }
{
    match stop {
        Stop::NoTrueRule(leaf, t) => {
            complain_at(
                alloc,
                room,
                model,
                b"no true rule",
                leaf,
                t,
                Status::NoTrueRule,
            )
        }
        Stop::Overflow(leaf, t) => {
            complain_at(alloc, room, model, b"overflow", leaf, t, Status::Overflow)
        }
        Stop::BadDelay(leaf, t, delay) => complain_delay(alloc, room, model, leaf, t, delay),
        Stop::TooManyCycles(t) => complain_many(alloc, room, asked.given.limit, t),
        Stop::Memory => Status::NoMemory,
    }
}

/// Complains of a leaf that stops the run.
fn complain_at<R: Room>(
    alloc: Global,
    room: &mut R,
    model: &Model,
    what: &[u8],
    leaf: u32,
    t: Time,
    status: Status,
) -> Status
    ensures { OfTree model.now (λ tree.
        Says (line_with_end (stopped_at what.now tree leaf t)) status (R.outside room.old)
        (R.outside room.new) result) }
{
    let Ok(line) = stopped_line(alloc, model, what, leaf, t) else {
        return Status::NoMemory;
    };
    complain(room, &line, status)
}

/// Complains of a leaf that stops the run by a delay that is none.
fn complain_delay<R: Room>(
    alloc: Global,
    room: &mut R,
    model: &Model,
    leaf: u32,
    t: Time,
    delay: Value,
) -> Status
    ensures { OfTree model.now (λ tree. Says (line_with_end
        (bad_delay_text tree leaf t delay)) exit.BadDelay (R.outside room.old)
        (R.outside room.new) result) }
{
    let Ok(line) = delay_line(alloc, model, leaf, t, delay) else {
        return Status::NoMemory;
    };
    complain(room, &line, Status::BadDelay)
}

/// Tells of an instant with too many cycles.
fn complain_many<R: Room>(alloc: Global, room: &mut R, limit: u32, t: Time) -> Status
    ensures { Says (line_with_end (many_line limit t)) exit.TooManyCycles
        (R.outside room.old) (R.outside room.new) result }
{
    let Ok(line) = many_cycles_line(alloc, limit, t) else {
        return Status::NoMemory;
    };
    complain(room, &line, Status::TooManyCycles)
}
