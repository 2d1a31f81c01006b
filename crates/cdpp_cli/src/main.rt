//! The process `cdpp`: the simulator over the real folder, with a stock of 4096 boxes of each
//! class.
//!
//! - `main` hands the words of the process to `cdpp` of `cdpp_top`, whose contract says what is
//!   done with them, and passes its status on. It makes the boxes of `atomic_kinds` and
//!   `state_tables`, and lets files stand in for standard streams that are closed.
//! - What `main` itself does, and what the real folder then holds, is tested and not proved. The
//!   words are those of docs/COMMANDS.md.
#![tactic(auto)]

ghost use Rattle.std.specs.Prelude.{◌≡◌, ◌<◌, ◌^◌, length};

use asked_words::{Status, given_words};
use atomic_face::{AtomicModel, Class};
use atomic_kinds::{CounterModel, CpuModel, GeneratorModel, QueueModel};
use cdpp_top::cdpp;
use cell_engine::Steps;
use quantity::OutOfMemory;
use room_edge::FolderRoom;
use state_tables::TableModel;
use std::alloc::{AllocError, Global};
use std::fs::{self, Files};
use std::marker::Brand;
use std::process::ExitCode;
use std::sync::ledger::{Blank, Ledger};
use std::{env, io};

/// How many boxes there are of each class.
const BOXES: usize = 4096;

/// Runs the program with a counter of its own.
fn counted<L: Ledger>(
    alloc: Global,
    words: &[String],
    boxes: Vec<Box<dyn AtomicModel>>,
    room: &mut FolderRoom<HostRuntime>,
    blank: Blank,
) -> Status
    requires few { length boxes.items < 2 ^ 32 }
    requires name { blank.name ≡ L.name }
    requires parts { blank.parts ≡ L.parts }
    requires some { 0 < L.parts }
{
    let mut steps: Steps<L> = Steps::new(blank);
    cdpp(alloc, words, boxes, room, &mut steps)
}

/// Three open files, each of which stands in for a standard stream that is closed, if there is one: a
/// made file that took its number would be shown and complained into. Writing to them fails.
fn stand_ins<R: Files>(rt: &R) -> [io::Result<R::File>; 3] {
    [fs::open(rt, "/"), fs::open(rt, "/"), fs::open(rt, "/")]
}

/// Runs the program with all boxes.
fn run_with_boxes(
    alloc: Global,
    words: &[String],
    room: &mut FolderRoom<HostRuntime>,
) -> Result<Status, OutOfMemory> {
    let mut boxes: Vec<Box<dyn AtomicModel>> = Vec::new(alloc);
    for number in 0..Class::ALL.len() * BOXES {
        let made: Box<dyn AtomicModel> = match Class::ALL[number / BOXES] {
            Class::Queue => Box::new(alloc, QueueModel::new(alloc)).map_err(AllocError::from)?,
            Class::Generator => Box::new(alloc, GeneratorModel::new()).map_err(AllocError::from)?,
            Class::Cpu => Box::new(alloc, CpuModel::new(alloc)).map_err(AllocError::from)?,
            Class::Counter => Box::new(alloc, CounterModel::new()).map_err(AllocError::from)?,
            Class::Table => Box::new(alloc, TableModel::new(alloc)?).map_err(AllocError::from)?,
        };
        let Ok(()) = boxes.push(made) else {
            return Err(OutOfMemory);
        };
    }
    let blank = Blank::new(1);
    Ok(counted::<Brand>(alloc, words, boxes, room, blank))
}

fn main(rt: HostRuntime) -> ExitCode {
    let alloc = rt.alloc();
    let Ok(words) = given_words(alloc, env::args(&rt), "cdpp") else {
        return ExitCode::from(Status::NoMemory.number());
    };
    let stand_ins = stand_ins(&rt);
    let mut room = FolderRoom::new(rt);
    let status = run_with_boxes(alloc, &words, &mut room).unwrap_or(Status::NoMemory);
    drop(stand_ins);
    ExitCode::from(status.number())
}
