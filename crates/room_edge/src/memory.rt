//! A room in memory, whose calls may be made to fail.
ghost use Rattle.std.specs.Prelude.{◌≡◌, ℕ, ◌<◌, ◌≤◌, ◌↔◌, ◌⊎◌, List, [], ◌∷◌, ◌++◌, length, min, Any, Contains, IsTrue, IfOk, OnOk, OnErr, IsOk, IsErr, IsErrOf, IsSome, IfSome};
ghost use Rattle.std.specs.Option.{option_copied};
ghost use Rattle.room_edge.specs.Outside.{puts};
ghost use Rattle.room_edge.specs.FaultCounts.{next_count};
ghost use Rattle.room_edge.specs.Fresh.{nothing_there};
ghost use Rattle.room_edge.specs.Calls.{Opens, Reads, Creates, Appends, Shows, Complains};

use crate::{OpenError, ReadFailed, Room, SureRoom, WriteError};
use quantity::OutOfMemory;
use std::alloc::Global;

/// The kinds of calls of a room.
#[derive(Clone, Copy, PartialEq, Eq)]
pub enum RoomCall {
    Open,
    Read,
    Create,
    Append,
    Show,
    Complain,
}

/// How often each call was made.
#[derive(Clone, Copy)]
struct Calls {
    opens: u64,
    reads: u64,
    creates: u64,
    appends: u64,
    shows: u64,
    complains: u64,
}

/// A room that holds its files and streams in memory and tells all of them. A call takes or gives
/// at most one piece, and a call that it was told to fail fails.
#[derive(Drop)]
pub struct MemoryRoom {
    sure: SureRoom,
    fails: Vec<(RoomCall, u64)>,
    calls: Calls,
    read_faults: u64,
    write_faults: u64,
    complain_faults: u64,
}

impl Calls {
    ghost use Rattle.room_edge.specs.Plan.{number_of, with_call};

    const NONE: Calls = Calls {
        opens: 0,
        reads: 0,
        creates: 0,
        appends: 0,
        shows: 0,
        complains: 0,
    };

    // Counts a call, and gives its number.
    fn count(&mut self, call: RoomCall) -> u64
        ensures number { result ≡ number_of self.new call }
        ensures counted { self.new ≡ with_call self.old call }
    {
        match call {
            RoomCall::Open => {
                self.opens = self.opens.saturating_add(1);
                self.opens
            }
            RoomCall::Read => {
                self.reads = self.reads.saturating_add(1);
                self.reads
            }
            RoomCall::Create => {
                self.creates = self.creates.saturating_add(1);
                self.creates
            }
            RoomCall::Append => {
                self.appends = self.appends.saturating_add(1);
                self.appends
            }
            RoomCall::Show => {
                self.shows = self.shows.saturating_add(1);
                self.shows
            }
            RoomCall::Complain => {
                self.complains = self.complains.saturating_add(1);
                self.complains
            }
        }
    }

    // Counts a call, and says whether it is one of those that are to fail.
    fn fails(&mut self, failing: &[(RoomCall, u64)], call: RoomCall) -> bool
        ensures due { IsTrue result ↔ Any (λ f. (f.0 ≡ call)
            × (f.1 ≡ number_of self.new call)) failing.now }
        ensures counted { self.new ≡ with_call self.old call }
    {
        let number = self.count(call);
        failing.iter().any(|f| is_of(f, call, number))
    }
}

// Whether a call that is to fail is this one.
fn is_of(failing: &(RoomCall, u64), call: RoomCall, number: u64) -> bool
    ensures { IsTrue result ↔ ((failing.now.0 ≡ call) × (failing.now.1 ≡ number)) }
{
    failing.0 == call && failing.1 == number
}

impl MemoryRoom {
    ghost use Rattle.room_edge.specs.Memory.{memory_outside, memory_piece, failing_calls, calls_made};

    /// An empty room. No call of it takes or gives more than `piece` bytes.
    pub fn new(alloc: Global, piece: usize) -> Self
        requires { 0 < piece }
        ensures outside { memory_outside result ≡ nothing_there }
        ensures piece { memory_piece result ≡ piece }
        ensures failing { failing_calls result ≡ [] }
        ensures calls { calls_made result ≡ Calls.NONE }
    {
        MemoryRoom {
            sure: SureRoom::new(alloc, piece),
            fails: Vec::new(alloc),
            calls: Calls::NONE,
            read_faults: 0,
            write_faults: 0,
            complain_faults: 0,
        }
    }

    /// Puts a file into the folder, in the place of one of that name.
    pub fn put_file(&mut self, name: &str, bytes: &[u8]) -> Result<(), OutOfMemory>
        ensures ok { OnOk result (memory_outside self.new
            ≡ record (memory_outside self.old) {
              files = puts (memory_outside self.old).files name.now bytes.now;
            }) }
        ensures err { OnErr result (memory_outside self.new ≡ memory_outside self.old) }
        ensures plan { (memory_piece self.new ≡ memory_piece self.old)
            × (failing_calls self.new ≡ failing_calls self.old)
            × (calls_made self.new ≡ calls_made self.old) }
    {
        self.sure.put_file(name, bytes)
    }

    /// Makes the call of that kind and number, counted from 1 since the room was made, fail.
    pub fn fail(&mut self, call: RoomCall, number: u64) -> Result<(), OutOfMemory>
        ensures ok { OnOk result (failing_calls self.new
            ≡ failing_calls self.old ++ (call, number) ∷ []) }
        ensures err { OnErr result (failing_calls self.new ≡ failing_calls self.old) }
        ensures others { (memory_piece self.new ≡ memory_piece self.old)
            × (calls_made self.new ≡ calls_made self.old)
            × (memory_outside self.new ≡ memory_outside self.old) }
    {
        match self.fails.push((call, number)) {
            Ok(()) => Ok(()),
            Err(_) => Err(OutOfMemory),
        }
    }

    /// The bytes of a file that was created in the room, and none where no such name was.
    pub fn made(&self, name: &str) -> Option<&[u8]>
        ensures some { IsSome result ↔ Contains (memory_outside self.now).created name.now }
        ensures bytes { IfSome (memory_outside self.now).made
            (λ made. option_copied result ≡ made name.now) }
    {
        self.sure.made(name)
    }

    /// The bytes on standard output.
    pub fn shown(&self) -> &[u8]
        ensures { (memory_outside self.now).shown ≡ Some result.now }
    {
        self.sure.shown()
    }

    /// The bytes on standard error.
    pub fn complained(&self) -> &[u8]
        ensures { (memory_outside self.now).complained ≡ Some result.now }
    {
        self.sure.complained()
    }
}

impl Room for MemoryRoom {
    ghost use Rattle.room_edge.specs.Memory.{memory_outside, memory_piece, IsDue, Counts};

    ghost outside = { memory_outside };

    fn open_input(&mut self, name: &str) -> Result<(), OpenError>
        ensures room { Opens result name.now (memory_outside self.old) (memory_outside self.new) }
        ensures due { IsDue self.old RoomCall.Open
            → IsErrOf result OpenError.Failed ⊎ IsErrOf result OpenError.Memory }
        ensures failed { IsErrOf result OpenError.Failed → IsDue self.old RoomCall.Open }
        ensures counted { Counts RoomCall.Open self.old self.new }
    {
        if self.calls.fails(&self.fails, RoomCall::Open) {
            let Ok(()) = self.sure.try_name(name) else {
                return Err(OpenError::Memory);
            };
            self.read_faults = self.read_faults.saturating_add(1);
            return Err(OpenError::Failed);
        }
        self.sure.open_input(name)
    }

    fn read_input(&mut self, into: &mut [u8]) -> Result<usize, ReadFailed>
        requires opened { IsTrue (memory_outside self.old).opened }
        requires room { 0 < length into.old }
        ensures room { Reads result into.new (memory_outside self.old) (memory_outside self.new) }
        ensures most { IfSome (memory_outside self.old).rest
            (λ rest. IfOk result (λ n. n ≡ min (min (length rest) (length into.old))
            (memory_piece self.old))) }
        ensures failed { IsErr result ↔ IsDue self.old RoomCall.Read }
        ensures counted { Counts RoomCall.Read self.old self.new }
    {
        if self.calls.fails(&self.fails, RoomCall::Read) {
            self.read_faults = self.read_faults.saturating_add(1);
            return Err(ReadFailed);
        }
        self.sure.read_input(into)
    }

    fn create(&mut self, name: &str) -> Result<(), WriteError>
        ensures room { Creates result name.now (memory_outside self.old) (memory_outside self.new) }
        ensures failed { IsErrOf result WriteError.Failed ↔ IsDue self.old RoomCall.Create }
        ensures counted { Counts RoomCall.Create self.old self.new }
    {
        if self.calls.fails(&self.fails, RoomCall::Create) {
            self.write_faults = self.write_faults.saturating_add(1);
            return Err(WriteError::Failed);
        }
        self.sure.create(name)
    }

    fn append(&mut self, name: &str, bytes: &[u8]) -> Result<usize, WriteError>
        requires { Contains (memory_outside self.old).created name.now }
        ensures room { Appends result name.now bytes.now (memory_outside self.old)
            (memory_outside self.new) }
        ensures most { IfOk result (λ n. n ≡ min (length bytes.now) (memory_piece self.old)) }
        ensures failed { IsErrOf result WriteError.Failed ↔ IsDue self.old RoomCall.Append }
        ensures counted { Counts RoomCall.Append self.old self.new }
    {
        if self.calls.fails(&self.fails, RoomCall::Append) {
            self.write_faults = self.write_faults.saturating_add(1);
            return Err(WriteError::Failed);
        }
        self.sure.append(name, bytes)
    }

    fn show(&mut self, bytes: &[u8]) -> Result<usize, WriteError>
        ensures room { Shows result bytes.now (memory_outside self.old) (memory_outside self.new) }
        ensures most { IfOk result (λ n. n ≡ min (length bytes.now) (memory_piece self.old)) }
        ensures failed { IsErrOf result WriteError.Failed ↔ IsDue self.old RoomCall.Show }
        ensures counted { Counts RoomCall.Show self.old self.new }
    {
        if self.calls.fails(&self.fails, RoomCall::Show) {
            self.write_faults = self.write_faults.saturating_add(1);
            return Err(WriteError::Failed);
        }
        self.sure.show(bytes)
    }

    fn complain(&mut self, bytes: &[u8]) -> Result<usize, WriteError>
        ensures room { Complains result bytes.now (memory_outside self.old)
            (memory_outside self.new) }
        ensures most { IfOk result (λ n. n ≡ min (length bytes.now) (memory_piece self.old)) }
        ensures failed { IsErrOf result WriteError.Failed ↔ IsDue self.old RoomCall.Complain }
        ensures counted { Counts RoomCall.Complain self.old self.new }
    {
        if self.calls.fails(&self.fails, RoomCall::Complain) {
            self.write_faults = self.write_faults.saturating_add(1);
            self.complain_faults = self.complain_faults.saturating_add(1);
            return Err(WriteError::Failed);
        }
        self.sure.complain(bytes)
    }
}
