//! The real folder and streams. Of what they hold it tells nothing.
ghost use Rattle.std.specs.Prelude.{◌≡◌, ◌≤◌, length, map, is_some, IfOk};
ghost use Rattle.room_edge.specs.Fresh.{nothing_told};
ghost use Rattle.std.specs.String.{string_bytes};

use crate::answered::{after_complaint, after_create, after_open, after_read, after_write, place};
use crate::tally::{MadeFile, Tally, no_tally};
use crate::{OpenError, ReadFailed, Room, WriteError};
use std::fs::Files;
use std::io::{ErrorKind, Read, Write};
use std::{fs, io};

/// The real folder, standard output and standard error, behind a runtime. It tells its counts and its names,
/// and none of the bytes.
///
/// A made file stays open between two appends. A write that takes nothing of a piece that isn't
/// empty is a fault of writing. Standard error takes text alone, so bytes that are no text are
/// a fault of complaining.
#[derive(Drop)]
pub struct FolderRoom<R: Files + Print + Eprint + AllocGlobal + Drop> {
    rt: R,
    input: Option<R::File>,
    made: Vec<MadeFile<R::File>>,
    tally: Tally,
}

// Writes to the newest file of that name.
fn write_to<F: Write + Drop>(
    made: &mut Vec<MadeFile<F>>,
    name: &str,
    bytes: &[u8],
) -> io::Result<usize>
    ensures names { map (λ m. string_bytes m.name) made.new.items
        ≡ map (λ m. string_bytes m.name) made.old.items }
    ensures bound { IfOk result (λ n. n ≤ length bytes.now) }
{
    let mut at = made.len();
    while at > 0 {
        at -= 1;
        let entry = &mut made[at];
        if entry.name.as_str() == name {
            return entry.file.write(bytes);
        }
    }
    Err(io::Error::from(ErrorKind::NotFound))
}

impl<R: Files + Print + Eprint + AllocGlobal + Drop> FolderRoom<R> {
    /// The folder that the program runs in, and its standard output and standard error.
    pub fn new(rt: R) -> Self
        ensures { ⟦<FolderRoom<R> as Room>⟧.outside result ≡ nothing_told }
    {
        let alloc = rt.alloc();
        FolderRoom {
            rt,
            input: None,
            made: Vec::new(alloc),
            tally: no_tally(alloc),
        }
    }
}

impl<R: Files + Print + Eprint + AllocGlobal + Drop> Room for FolderRoom<R> {
    ghost use Rattle.room_edge.specs.Real.{real_outside};

    ghost outside = { λ r. real_outside r.tally (map (λ m. string_bytes m.name) r.made.items)
        (is_some r.input) };

    fn open_input(&mut self, name: &str) -> Result<(), OpenError> {
        let answer = fs::open(&self.rt, name);
        after_open(
            self.rt.alloc(),
            answer,
            name,
            &mut self.input,
            &mut self.tally,
        )
    }

    fn read_input(&mut self, into: &mut [u8]) -> Result<usize, ReadFailed> {
        let Some(file) = &mut self.input else {
            unreachable!();
        };
        let answer = file.read(into);
        after_read(answer, into.len(), &mut self.tally)
    }

    // Memory comes first, so that want of it leaves the file as it was.
    fn create(&mut self, name: &str) -> Result<(), WriteError> {
        let copy = place(self.rt.alloc(), &mut self.made, name)?;
        let answer = fs::create(&self.rt, name);
        after_create(answer, copy, &mut self.made, &mut self.tally)
    }

    fn append(&mut self, name: &str, bytes: &[u8]) -> Result<usize, WriteError> {
        let answer = write_to(&mut self.made, name, bytes);
        after_write(answer, bytes.len(), &mut self.tally)
    }

    fn show(&mut self, bytes: &[u8]) -> Result<usize, WriteError> {
        let answer = io::writer(&self.rt).write(bytes);
        after_write(answer, bytes.len(), &mut self.tally)
    }

    fn complain(&mut self, bytes: &[u8]) -> Result<usize, WriteError> {
        // A runtime takes text alone on standard error.
        let answer = match str::from_utf8(bytes) {
            Ok(text) => Some(self.rt.eprint(text)),
            Err(_) => None,
        };
        after_complaint(answer, bytes.len(), &mut self.tally)
    }
}
