//! Whole files and whole pieces, over any room.
ghost use Rattle.std.specs.Prelude.{◌≡◌, ℕ, ◌+◌, ◌<◌, ◌≤◌, [], length};
ghost use Rattle.std.specs.Prelude.{Contains, IsTrue, IfOk, OnErr, IsErrOf, IfSome};
ghost use Rattle.room_edge.specs.Only.{OnlyInput, OnlyMade, OnlyShown, OnlyComplained, adds};
ghost use Rattle.room_edge.specs.Outside.{streams};
ghost use Rattle.room_edge.specs.Faults.{MissCounted, ReadFaultCounted};
ghost use Rattle.room_edge.specs.FaultCounts.{KeepsMisses, KeepsReadFaults, KeepsWriteFaults, KeepsComplaintFaults};
ghost use Rattle.room_edge.specs.Whole.{IsReadOf, IsLeftOf, KeepsOpen, Tries, CountsMissOfWhole, bytes_written, FaultIsCounted, ComplaintIsCounted};
ghost use Rattle.room_edge.specs.Whole.{CountsFaultOfWhole, CountsFaultOfAll, count_written};
ghost use Rattle.room_edge.specs.Whole.{unopened_as, ReadsRest};

use crate::{OpenError, Room, WriteError};
use std::alloc::{AllocError, Global};

/// Why a file was not read whole.
#[derive(Clone, Copy)]
pub enum ReadWhole {
    /// There is no file of that name: a miss, which is counted.
    Missing,
    /// The room failed to open or to read it: a fault of reading, which is counted.
    ReadFault,
    /// It is longer than the limit: so many of its bytes were taken, one more than the limit.
    TooLong(u64),
    /// There is no memory for its bytes.
    Memory,
}

/// Why not all bytes were written. The number tells how many were.
#[derive(Clone, Copy)]
pub enum WriteAll {
    /// The room failed to write the next: a fault of writing, which is counted.
    WriteFault(usize),
    /// The room has no memory for the next.
    Memory(usize),
}

// How many bytes are asked for at once.
const PIECE: usize = 65536;

// A piece to read into, on the heap: a function pays at each call for an array of that size.
fn zeros(alloc: Global, count: usize) -> Result<Vec<u8>, AllocError>
    ensures { IfOk result (λ piece. length piece.items ≡ count) }
{
    vec![in alloc; 0u8; count]
}

// How many bytes are asked for at most, after so many: one past the limit tells that there are
// more.
fn left_to_ask(limit: u32, read: usize) -> usize
    requires { read ≤ limit }
    ensures { read + result ≡ limit + 1 }
{
    limit as usize + 1 - read
}

// Why a file is not read that could not be opened.
fn unopened(error: OpenError) -> ReadWhole
    ensures { result ≡ unopened_as error }
{
    match error {
        OpenError::Missing => ReadWhole::Missing,
        OpenError::Failed => ReadWhole::ReadFault,
        OpenError::Memory => ReadWhole::Memory,
    }
}

// Takes what is left of an opened input, a piece at a time.
fn read_rest<R: Room>(
    room: &mut R,
    piece: &mut Vec<u8>,
    bytes: &mut Vec<u8>,
    limit: u32,
) -> Result<(), ReadWhole>
    requires opened { IsTrue (R.outside room.old).opened }
    requires asked { 0 < length piece.old.items }
    requires none { bytes.old.items ≡ [] }
    ensures { ReadsRest result limit bytes.new.items (R.outside room.old) (R.outside room.new) }
{
    loop {
        piece.truncate(left_to_ask(limit, bytes.len()));
        let Ok(n) = room.read_input(piece) else {
            return Err(ReadWhole::ReadFault);
        };
        if n == 0 {
            return Ok(());
        }
        if n > limit as usize - bytes.len() {
            return Err(ReadWhole::TooLong(bytes.len() as u64 + n as u64));
        }
        if bytes.extend_from_slice(&piece[..n]).is_err() {
            return Err(ReadWhole::Memory);
        }
    }
}

/// Reads a file of at most `limit` bytes.
///
/// # Errors
///
/// `Missing` where there is no such file, `TooLong` where it has more bytes than the limit (just
/// one byte past it is taken), `ReadFault` where the room failed, `Memory` where memory ran out,
/// maybe before the file was looked for.
pub fn read_whole<R: Room>(
    alloc: Global,
    room: &mut R,
    name: &str,
    limit: u32,
) -> Result<Vec<u8>, ReadWhole>
    ensures bytes { IfSome (R.outside room.old).files
        (λ files. IsReadOf files name.now limit result) }
    ensures left { IfSome (R.outside room.old).files
        (λ files. IsLeftOf files name.now result (R.outside room.new).rest) }
    ensures short { IfOk result (λ bytes. length bytes.items ≤ limit) }
    ensures missing { IsErrOf result ReadWhole.Missing
        → MissCounted (R.outside room.old) (R.outside room.new) }
    ensures fault { IsErrOf result ReadWhole.ReadFault
        → ReadFaultCounted (R.outside room.old) (R.outside room.new) }
    ensures long { (n : ℕ) → IsErrOf result (ReadWhole.TooLong n) → n ≡ limit + 1 }
    ensures tried { Tries result name.now (R.outside room.old).tried (R.outside room.new).tried }
    ensures opened { KeepsOpen result (R.outside room.old) (R.outside room.new) }

    ensures counts_misses { CountsMissOfWhole result (R.outside room.old).misses
        (R.outside room.new).misses }
    ensures counts_faults { CountsFaultOfWhole result (R.outside room.old).read_faults
        (R.outside room.new).read_faults }
    ensures misses { KeepsMisses (R.outside room.old) (R.outside room.new) }
    ensures faults { KeepsReadFaults (R.outside room.old) (R.outside room.new) }
    ensures only { OnlyInput (R.outside room.old) (R.outside room.new) }
{
    let Ok(mut piece) = zeros(alloc, PIECE) else {
        return Err(ReadWhole::Memory);
    };
    match room.open_input(name) {
        Ok(()) => {}
        Err(error) => return Err(unopened(error)),
    }
    let mut bytes: Vec<u8> = Vec::new(alloc);
    match read_rest(room, &mut piece, &mut bytes, limit) {
        Ok(()) => Ok(bytes),
        Err(error) => Err(error),
    }
}

/// Adds all the bytes to a file that was created in the room.
///
/// # Errors
///
/// `WriteFault` where the room failed, `Memory` where it ran out of memory, each with the number of
/// bytes that were added: the first ones, and not all.
pub fn write_all<R: Room>(room: &mut R, name: &str, bytes: &[u8]) -> Result<(), WriteAll>
    requires { Contains (R.outside room.old).created name.now }
    ensures made { (R.outside room.new).made
        ≡ adds (R.outside room.old).made name.now (bytes_written result bytes.now) }
    ensures bound { count_written result (length bytes.now) ≤ length bytes.now }
    ensures short { OnErr result (count_written result (length bytes.now) < length bytes.now) }
    ensures fault { FaultIsCounted result bytes.now (R.outside room.old) (R.outside room.new) }
    ensures created { (R.outside room.new).created ≡ (R.outside room.old).created }
    ensures counts_faults { CountsFaultOfAll result (R.outside room.old).write_faults
        (R.outside room.new).write_faults }
    ensures faults { KeepsWriteFaults (R.outside room.old) (R.outside room.new) }
    ensures only { OnlyMade (R.outside room.old) (R.outside room.new) }
{
    let mut done = 0;
    while done < bytes.len() {
        match room.append(name, &bytes[done..]) {
            Ok(n) => done += n,
            Err(WriteError::Failed) => return Err(WriteAll::WriteFault(done)),
            Err(WriteError::Memory) => return Err(WriteAll::Memory(done)),
        }
    }
    Ok(())
}

/// Adds all the bytes to standard output.
///
/// # Errors
///
/// `WriteFault` where the room failed, `Memory` where it ran out of memory, each with the number of
/// bytes that were added: the first ones, and not all.
pub fn show_all<R: Room>(room: &mut R, bytes: &[u8]) -> Result<(), WriteAll>
    ensures shown { (R.outside room.new).shown
        ≡ streams (R.outside room.old).shown (bytes_written result bytes.now) }
    ensures bound { count_written result (length bytes.now) ≤ length bytes.now }
    ensures short { OnErr result (count_written result (length bytes.now) < length bytes.now) }
    ensures fault { FaultIsCounted result bytes.now (R.outside room.old) (R.outside room.new) }
    ensures counts_faults { CountsFaultOfAll result (R.outside room.old).write_faults
        (R.outside room.new).write_faults }
    ensures faults { KeepsWriteFaults (R.outside room.old) (R.outside room.new) }
    ensures only { OnlyShown (R.outside room.old) (R.outside room.new) }
{
    let mut done = 0;
    while done < bytes.len() {
        match room.show(&bytes[done..]) {
            Ok(n) => done += n,
            Err(WriteError::Failed) => return Err(WriteAll::WriteFault(done)),
            Err(WriteError::Memory) => return Err(WriteAll::Memory(done)),
        }
    }
    Ok(())
}

/// Adds all the bytes to standard error. A fault counts as one of complaining too.
///
/// # Errors
///
/// `WriteFault` where the room failed, `Memory` where it ran out of memory, each with the number of
/// bytes that were added: the first ones, and not all.
pub fn complain_all<R: Room>(room: &mut R, bytes: &[u8]) -> Result<(), WriteAll>
    ensures complained { (R.outside room.new).complained
        ≡ streams (R.outside room.old).complained (bytes_written result bytes.now) }
    ensures bound { count_written result (length bytes.now) ≤ length bytes.now }
    ensures short { OnErr result (count_written result (length bytes.now) < length bytes.now) }
    ensures fault { ComplaintIsCounted result bytes.now (R.outside room.old) (R.outside room.new) }
    ensures counts_faults { CountsFaultOfAll result (R.outside room.old).write_faults
        (R.outside room.new).write_faults }
    ensures counts_complain_faults { CountsFaultOfAll result (R.outside room.old).complain_faults
        (R.outside room.new).complain_faults }
    ensures faults { KeepsWriteFaults (R.outside room.old) (R.outside room.new) }
    ensures complain_faults { KeepsComplaintFaults (R.outside room.old) (R.outside room.new) }
    ensures only { OnlyComplained (R.outside room.old) (R.outside room.new) }
{
    let mut done = 0;
    while done < bytes.len() {
        match room.complain(&bytes[done..]) {
            Ok(n) => done += n,
            Err(WriteError::Failed) => return Err(WriteAll::WriteFault(done)),
            Err(WriteError::Memory) => return Err(WriteAll::Memory(done)),
        }
    }
    Ok(())
}
