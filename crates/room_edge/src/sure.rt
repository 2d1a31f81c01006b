//! A room in memory, whose calls take and give at most so many bytes at once. None of them fails.
ghost use Rattle.std.specs.Prelude.{◌≡◌, ℕ, ◌<◌, ◌≤◌, List, [], ◌∷◌, ◌++◌, length, min, Contains, IsTrue, OnOk, OnErr, IfOk, IsOk, IsErrOf, IsSome, IfSome, ◌↔◌};
ghost use Rattle.std.specs.Option.{option_copied};
ghost use Rattle.room_edge.specs.Outside.{Outside, with_file, puts};
ghost use Rattle.room_edge.specs.Only.{with_more};
ghost use Rattle.room_edge.specs.Folder.{folder_of, names_of, Lists};
ghost use Rattle.room_edge.specs.Fresh.{nothing_there};
ghost use Rattle.room_edge.specs.Calls.{Opens, Reads, Creates, Appends, Shows, Complains};

use crate::{OpenError, ReadFailed, Room, WriteError};
use quantity::OutOfMemory;
use std::alloc::{AllocError, Global};
use std::collections::BTreeMap;

/// A room that holds its files and streams in memory and tells all of them. A call takes or gives
/// at most one piece, and no call fails.
#[derive(Drop)]
pub struct SureRoom {
    alloc: Global,
    piece: usize,
    files: BTreeMap<String, Vec<u8>>,
    made: BTreeMap<String, Vec<u8>>,
    shown: Vec<u8>,
    complained: Vec<u8>,
    input: Vec<u8>,
    taken: usize,
    opened: bool,
    tried: Vec<String>,
    created: Vec<String>,
    misses: u64,
    ghost some: { 0 < piece },
    ghost within: { taken ≤ length input.items },
    ghost listed: { Lists (folder_of made) (names_of created) },
}

// Puts a file in the place of what may stand there.
fn put(
    alloc: Global,
    files: &mut BTreeMap<String, Vec<u8>>,
    name: &str,
    bytes: &[u8],
) -> Result<(), AllocError>
    ensures ok { OnOk result (folder_of files.new
        ≡ with_file name.now bytes.now (folder_of files.old)) }
    ensures err { OnErr result (folder_of files.new ≡ folder_of files.old) }
{
    let key = String::from_str(alloc, name)?;
    let value = bytes.to_vec(alloc)?;
    match files.insert(key, value) {
        Ok(_) => Ok(()),
        Err(error) => Err(AllocError::from(error)),
    }
}

// Adds bytes to the end of a file, if there is one of that name.
fn grow(files: &mut BTreeMap<String, Vec<u8>>, name: &str, bytes: &[u8]) -> Result<(), AllocError>
    ensures ok { OnOk result (folder_of files.new
        ≡ with_more name.now bytes.now (folder_of files.old)) }
    ensures err { OnErr result (folder_of files.new ≡ folder_of files.old) }
{
    if let Some(file) = files.get_mut(name) {
        file.extend_from_slice(bytes)?;
    }
    Ok(())
}

// Adds a name to a list of them.
fn add_name(alloc: Global, names: &mut Vec<String>, name: &str) -> Result<(), AllocError>
    ensures ok { OnOk result (names_of names.new ≡ names_of names.old ++ name.now ∷ []) }
    ensures err { OnErr result (names_of names.new ≡ names_of names.old) }
{
    let copy = String::from_str(alloc, name)?;
    names.push(copy)?;
    Ok(())
}

impl SureRoom {
    ghost use Rattle.room_edge.specs.Sure.{sure_outside, sure_piece};

    /// An empty room. No call of it takes or gives more than `piece` bytes.
    pub fn new(alloc: Global, piece: usize) -> Self
        requires { 0 < piece }
        ensures outside { sure_outside result ≡ nothing_there }
        ensures piece { sure_piece result ≡ piece }
    {
        SureRoom {
            alloc,
            piece,
            files: BTreeMap::new(alloc),
            made: BTreeMap::new(alloc),
            shown: Vec::new(alloc),
            complained: Vec::new(alloc),
            input: Vec::new(alloc),
            taken: 0,
            opened: false,
            tried: Vec::new(alloc),
            created: Vec::new(alloc),
            misses: 0,
        }
    }

    /// Puts a file into the folder, in the place of one of that name.
    #[tactic(auto, unfolding(crate::specs::Outside::puts))]
    pub fn put_file(&mut self, name: &str, bytes: &[u8]) -> Result<(), OutOfMemory>
        ensures ok { OnOk result (sure_outside self.new
            ≡ record (sure_outside self.old) {
              files = puts (sure_outside self.old).files name.now bytes.now;
            }) }
        ensures err { OnErr result (sure_outside self.new ≡ sure_outside self.old) }
        ensures piece { sure_piece self.new ≡ sure_piece self.old }
    {
        match put(self.alloc, &mut self.files, name, bytes) {
            Ok(()) => Ok(()),
            Err(_) => Err(OutOfMemory),
        }
    }

    // Adds a name to those that were asked for.
    pub(crate) fn try_name(&mut self, name: &str) -> Result<(), AllocError>
        ensures ok { OnOk result (sure_outside self.new
            ≡ record (sure_outside self.old) {
              tried = (sure_outside self.old).tried ++ name.now ∷ [];
            }) }
        ensures err { OnErr result (sure_outside self.new ≡ sure_outside self.old) }
        ensures piece { sure_piece self.new ≡ sure_piece self.old }
    {
        add_name(self.alloc, &mut self.tried, name)
    }

    /// The bytes of a file that was created in the room, and none where no such name was.
    pub fn made(&self, name: &str) -> Option<&[u8]>
        ensures some { IsSome result ↔ Contains (sure_outside self.now).created name.now }
        ensures bytes { IfSome (sure_outside self.now).made
            (λ made. option_copied result ≡ made name.now) }
    {
        match self.made.get(name) {
            None => None,
            Some(bytes) => Some(bytes.as_slice()),
        }
    }

    /// The bytes on standard output.
    pub fn shown(&self) -> &[u8]
        ensures { (sure_outside self.now).shown ≡ Some result.now }
    {
        &self.shown
    }

    /// The bytes on standard error.
    pub fn complained(&self) -> &[u8]
        ensures { (sure_outside self.now).complained ≡ Some result.now }
    {
        &self.complained
    }
}

impl Room for SureRoom {
    ghost use Rattle.room_edge.specs.Sure.{sure_outside, sure_piece};

    ghost outside = { sure_outside };

    fn open_input(&mut self, name: &str) -> Result<(), OpenError>
        ensures room { Opens result name.now (sure_outside self.old) (sure_outside self.new) }
        ensures piece { sure_piece self.new ≡ sure_piece self.old }
    {
        let found = match self.files.get(name) {
            None => None,
            Some(bytes) => match bytes.to_vec(self.alloc) {
                Ok(bytes) => Some(bytes),
                Err(_) => return Err(OpenError::Memory),
            },
        };
        let Ok(()) = add_name(self.alloc, &mut self.tried, name) else {
            return Err(OpenError::Memory);
        };
        match found {
            None => {
                self.misses = self.misses.saturating_add(1);
                Err(OpenError::Missing)
            }
            Some(bytes) => {
                self.taken = 0;
                self.input = bytes;
                self.opened = true;
                Ok(())
            }
        }
    }

    fn read_input(&mut self, into: &mut [u8]) -> Result<usize, ReadFailed>
        requires opened { IsTrue (sure_outside self.old).opened }
        requires room { 0 < length into.old }
        ensures room { Reads result into.new (sure_outside self.old) (sure_outside self.new) }
        ensures sure { IsOk result }
        ensures most { IfSome (sure_outside self.old).rest
            (λ rest. IfOk result (λ n. n ≡ min (min (length rest) (length into.old))
            (sure_piece self.old))) }
        ensures piece { sure_piece self.new ≡ sure_piece self.old }
    {
        let left = self.input.len() - self.taken;
        let n = left.min(into.len()).min(self.piece);
        into[..n].copy_from_slice(&self.input[self.taken..self.taken + n]);
        self.taken += n;
        Ok(n)
    }

    fn create(&mut self, name: &str) -> Result<(), WriteError>
        ensures room { Creates result name.now (sure_outside self.old) (sure_outside self.new) }
        ensures piece { sure_piece self.new ≡ sure_piece self.old }
    {
        let Ok(()) = add_name(self.alloc, &mut self.created, name) else {
            return Err(WriteError::Memory);
        };
        let Ok(()) = put(self.alloc, &mut self.made, name, &[]) else {
            let _ = self.created.pop();
            return Err(WriteError::Memory);
        };
        Ok(())
    }

    fn append(&mut self, name: &str, bytes: &[u8]) -> Result<usize, WriteError>
        requires { Contains (sure_outside self.old).created name.now }
        ensures room { Appends result name.now bytes.now (sure_outside self.old)
            (sure_outside self.new) }
        ensures most { IfOk result (λ n. n ≡ min (length bytes.now) (sure_piece self.old)) }
        ensures piece { sure_piece self.new ≡ sure_piece self.old }
    {
        let n = bytes.len().min(self.piece);
        let Ok(()) = grow(&mut self.made, name, &bytes[..n]) else {
            return Err(WriteError::Memory);
        };
        Ok(n)
    }

    #[tactic(auto, unfolding(crate::specs::Outside::streams))]
    fn show(&mut self, bytes: &[u8]) -> Result<usize, WriteError>
        ensures room { Shows result bytes.now (sure_outside self.old) (sure_outside self.new) }
        ensures most { IfOk result (λ n. n ≡ min (length bytes.now) (sure_piece self.old)) }
        ensures piece { sure_piece self.new ≡ sure_piece self.old }
    {
        let n = bytes.len().min(self.piece);
        if self.shown.extend_from_slice(&bytes[..n]).is_err() {
            return Err(WriteError::Memory);
        }
        Ok(n)
    }

    #[tactic(auto, unfolding(crate::specs::Outside::streams))]
    fn complain(&mut self, bytes: &[u8]) -> Result<usize, WriteError>
        ensures room { Complains result bytes.now (sure_outside self.old) (sure_outside self.new) }
        ensures most { IfOk result (λ n. n ≡ min (length bytes.now) (sure_piece self.old)) }
        ensures piece { sure_piece self.new ≡ sure_piece self.old }
    {
        let n = bytes.len().min(self.piece);
        if self.complained.extend_from_slice(&bytes[..n]).is_err() {
            return Err(WriteError::Memory);
        }
        Ok(n)
    }
}
