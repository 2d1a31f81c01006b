// Runs of both programs in a room in memory.
ghost use Rattle.std.specs.Prelude.{◌≡◌, ◌<◌, ◌^◌, length};

use asked_words::Status;
use atomic_face::{AtomicModel, Class};
use atomic_kinds::{CounterModel, CpuModel, GeneratorModel, QueueModel};
use cdpp_top::cdpp;
use cell_engine::Steps;
use drawlog_top::drawlog;
use quantity::OutOfMemory;
use room_edge::MemoryRoom;
use state_tables::TableModel;
use std::alloc::{AllocError, Global};
use std::marker::Brand;
use std::sync::ledger::{Blank, Ledger};

/// How many boxes there are of each class.
const BOXES: usize = 2;

/// Puts files into the room: the name and the text of each.
pub fn put_files(room: &mut MemoryRoom, files: &[(&str, &str)]) -> Result<(), OutOfMemory> {
    for (name, text) in files {
        room.put_file(name, text.as_bytes())?;
    }
    Ok(())
}

/// Runs the program that a command line begins with, in the room: `drawlog`, or else `cdpp`. Words
/// stand apart by single blanks.
///
/// # Errors
///
/// `OutOfMemory` where memory ran out before the program began.
pub fn run(alloc: Global, line: &str, room: &mut MemoryRoom) -> Result<Status, OutOfMemory> {
    let words = words_of(alloc, line)?;
    if line.as_bytes().starts_with(b"drawlog") {
        return Ok(drawlog(alloc, &words, room));
    }
    run_cdpp(alloc, &words, room)
}

/// The words of a command line.
fn words_of(alloc: Global, line: &str) -> Result<Vec<String>, OutOfMemory> {
    let mut words: Vec<String> = Vec::new(alloc);
    for word in line.split(' ') {
        let word = String::from_str(alloc, word)?;
        words.push(word).map_err(AllocError::from)?;
    }
    Ok(words)
}

/// Runs `cdpp` with a counter of its own.
fn counted<L: Ledger>(
    alloc: Global,
    words: &[String],
    boxes: Vec<Box<dyn AtomicModel>>,
    room: &mut MemoryRoom,
    blank: Blank,
) -> Status
    requires few { length boxes.items < 2 ^ 32 }
    requires name { blank.name ≡ L.name }
    requires parts { blank.parts ≡ L.parts }
    requires some { 0 < L.parts }
{
    let mut steps: Steps<L> = Steps::new(blank);
    cdpp(alloc, words, boxes, room, &mut steps)
}

/// Runs `cdpp` with all boxes.
fn run_cdpp(alloc: Global, words: &[String], room: &mut MemoryRoom) -> Result<Status, OutOfMemory> {
    let mut boxes: Vec<Box<dyn AtomicModel>> = Vec::new(alloc);
    for number in 0..Class::ALL.len() * BOXES {
        let made: Box<dyn AtomicModel> = match Class::ALL[number / BOXES] {
            Class::Queue => Box::new(alloc, QueueModel::new(alloc)).map_err(AllocError::from)?,
            Class::Generator => Box::new(alloc, GeneratorModel::new()).map_err(AllocError::from)?,
            Class::Cpu => Box::new(alloc, CpuModel::new(alloc)).map_err(AllocError::from)?,
            Class::Counter => Box::new(alloc, CounterModel::new()).map_err(AllocError::from)?,
            Class::Table => Box::new(alloc, TableModel::new(alloc)?).map_err(AllocError::from)?,
        };
        let Ok(()) = boxes.push(made) else {
            return Err(OutOfMemory);
        };
    }
    let blank = Blank::new(1);
    Ok(counted::<Brand>(alloc, words, boxes, room, blank))
}
