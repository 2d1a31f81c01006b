//! A room, seen through its calls.
ghost use Rattle.std.specs.Prelude.{ℕ, ◌<◌, length, Contains, IsTrue};
ghost use Rattle.room_edge.specs.Outside.{Outside};
ghost use Rattle.room_edge.specs.Calls.{Opens, Reads, Creates, Appends, Shows, Complains};

use thiserror::Error;

/// Why a file was not opened.
#[derive(Clone, Copy, Debug, Error)]
pub enum OpenError {
    /// There is no file of that name.
    #[error("no such file")]
    Missing,
    /// There is one, or may be, and it can't be opened: a fault of reading, which is counted.
    #[error("can't be opened")]
    Failed,
    #[error("out of memory")]
    Memory,
}

/// The input couldn't be read: a fault of reading, which is counted.
#[derive(Clone, Copy, Debug, Error)]
#[error("can't be read")]
pub struct ReadFailed;

/// Why a file wasn't made, or no byte added to a file or a stream.
#[derive(Clone, Copy, Debug, Error)]
pub enum WriteError {
    /// It can't be written to: a fault of writing, which is counted.
    #[error("can't be written")]
    Failed,
    #[error("out of memory")]
    Memory,
}

/// The outside of a program: a folder to read from, files that the program makes, standard output
/// and standard error.
///
/// A room may tell what it holds, or not: its files, those made with their bytes, the bytes on
/// the streams and what is left of the input. Every room tells its counts of faults and misses,
/// the names asked for, the names created, and whether an input is open. No call changes the
/// files that can be read, and a call that runs out of memory or fails adds nothing.
pub trait Room {
    /// What there is outside, as far as the room tells it.
    ghost outside: { Self → Outside };

    /// Opens a file, in the place of the input before. Where it can't, that input stays open as it
    /// was.
    fn open_input(&mut self, name: &str) -> Result<(), OpenError>
        ensures { Opens result name.now (outside self.old) (outside self.new) };

    /// Takes bytes from the front of what is left of the input. None is taken only at its end.
    fn read_input(&mut self, into: &mut [u8]) -> Result<usize, ReadFailed>
        requires opened { IsTrue (outside self.old).opened }
        requires room { 0 < length into.old }
        ensures { Reads result into.new (outside self.old) (outside self.new) };

    /// Makes a file, and empties one that stands there.
    fn create(&mut self, name: &str) -> Result<(), WriteError>
        ensures { Creates result name.now (outside self.old) (outside self.new) };

    /// Adds the front of a piece to a file that was created here: at least one byte, where there
    /// is one. Says how many.
    fn append(&mut self, name: &str, bytes: &[u8]) -> Result<usize, WriteError>
        requires { Contains (outside self.old).created name.now }
        ensures { Appends result name.now bytes.now (outside self.old) (outside self.new) };

    /// Adds the front of a piece to standard output, and says how many bytes.
    fn show(&mut self, bytes: &[u8]) -> Result<usize, WriteError>
        ensures { Shows result bytes.now (outside self.old) (outside self.new) };

    /// Adds the front of a piece to standard error, and says how many bytes. A fault here counts
    /// as one of complaining and as one of writing.
    fn complain(&mut self, bytes: &[u8]) -> Result<usize, WriteError>
        ensures { Complains result bytes.now (outside self.old) (outside self.new) };
}
