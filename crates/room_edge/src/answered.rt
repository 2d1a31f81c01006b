// What a call over the real outside comes to, by the answer of the system.
ghost use Rattle.std.specs.Prelude.{◌≡◌, ◌≢◌, ℕ, ◌≤◌, Bool, List, [], ◌∷◌, ◌++◌, length, map, is_some, IfOk, OnOk, OnErr};
ghost use Rattle.std.specs.String.{string_bytes};
ghost use Rattle.room_edge.specs.Answered.{OpensAs, CreatesAs, input_after, read_as, written_as, complained_as, misses_after, open_faults_after, read_faults_after, write_faults_after};
ghost use Rattle.room_edge.specs.Calls.{Opens, Reads, Creates, Appends, Shows, Complains};
ghost use Rattle.room_edge.specs.Real.{real_outside, created_names, OverReal};

use crate::tally::{MadeFile, Tally};
use crate::{OpenError, ReadFailed, WriteError};
use std::alloc::Global;
use std::io;
use std::io::ErrorKind;

// What the system answered to a name. Want of memory is no fault of the file.
fn file_of<F: Drop>(answer: io::Result<F>) -> Result<F, OpenError>
    ensures says { OpensAs answer result }
    ensures file { IfOk result (λ file. answer ≡ Ok file) }
{
    match answer {
        Ok(file) => Ok(file),
        Err(error) => Err(match error.kind() {
            ErrorKind::NotFound => OpenError::Missing,
            ErrorKind::OutOfMemory => OpenError::Memory,
            _ => OpenError::Failed,
        }),
    }
}

// Adds a name to those asked for.
fn note(alloc: Global, tried: &mut Vec<String>, name: &str) -> Result<(), OpenError>
    ensures ok { OnOk result (map string_bytes tried.new.items
        ≡ map string_bytes tried.old.items ++ name.now ∷ []) }
    ensures memory { OnErr result (result ≡ Err OpenError.Memory) }
    ensures err { OnErr result (tried.new.items ≡ tried.old.items) }
{
    let Ok(copy) = String::from_str(alloc, name) else {
        return Err(OpenError::Memory);
    };
    match tried.push(copy) {
        Ok(()) => Ok(()),
        Err(_) => Err(OpenError::Memory),
    }
}

/// What comes of a file that the system opened, or not.
pub(crate) fn after_open<F: Drop>(
    alloc: Global,
    answer: io::Result<F>,
    name: &str,
    input: &mut Option<F>,
    tally: &mut Tally,
) -> Result<(), OpenError>
    ensures says { result ≢ Err OpenError.Memory → OpensAs answer result }
    ensures input { input.new ≡ input_after result answer input.old }
    ensures misses { tally.new.misses ≡ misses_after result tally.old.misses }
    ensures faults { tally.new.read_faults ≡ open_faults_after result tally.old.read_faults }
    ensures room { (created : List (List ℕ))
        → Opens result name.now (real_outside tally.old created (is_some input.old))
        (real_outside tally.new created (is_some input.new)) }
{
    match file_of(answer) {
        Ok(file) => {
            note(alloc, &mut tally.tried, name)?;
            *input = Some(file);
            Ok(())
        }
        Err(OpenError::Missing) => {
            note(alloc, &mut tally.tried, name)?;
            tally.misses = tally.misses.saturating_add(1);
            Err(OpenError::Missing)
        }
        Err(OpenError::Failed) => {
            note(alloc, &mut tally.tried, name)?;
            tally.read_faults = tally.read_faults.saturating_add(1);
            Err(OpenError::Failed)
        }
        Err(OpenError::Memory) => Err(OpenError::Memory),
    }
}

/// What comes of a read into a piece of that length.
pub(crate) fn after_read(
    answer: io::Result<usize>,
    most: usize,
    tally: &mut Tally,
) -> Result<usize, ReadFailed>
    requires { IfOk answer (λ n. n ≤ most) }
    ensures says { result ≡ read_as answer }
    ensures tally { tally.new
        ≡ record tally.old { read_faults = read_faults_after result tally.old.read_faults } }
    ensures room { (into : List ℕ) → length into ≡ most
        → OverReal (Reads result into) tally.old tally.new }
{
    match answer {
        Ok(n) => Ok(n),
        Err(_) => {
            tally.read_faults = tally.read_faults.saturating_add(1);
            Err(ReadFailed)
        }
    }
}

/// A copy of a name, and a place for its file.
pub(crate) fn place<F: Drop>(
    alloc: Global,
    made: &mut Vec<MadeFile<F>>,
    name: &str,
) -> Result<String, WriteError>
    ensures name { IfOk result (λ copy. string_bytes copy ≡ name.now) }
    ensures memory { OnErr result (result ≡ Err WriteError.Memory) }
    ensures made { made.new.items ≡ made.old.items }
{
    let Ok(copy) = String::from_str(alloc, name) else {
        return Err(WriteError::Memory);
    };
    match made.reserve(1) {
        Ok(()) => Ok(copy),
        Err(_) => Err(WriteError::Memory),
    }
}

/// What comes of a file that the system made, or not.
#[tactic(auto, unfolding(crate::specs::Outside::puts))]
pub(crate) fn after_create<F: Drop>(
    answer: io::Result<F>,
    name: String,
    made: &mut Vec<MadeFile<F>>,
    tally: &mut Tally,
) -> Result<(), WriteError>
    ensures says { result ≢ Err WriteError.Memory → CreatesAs answer result }
    ensures tally { tally.new
        ≡ record tally.old { write_faults = write_faults_after result tally.old.write_faults } }
    ensures room { (opened : Bool) → Creates result (string_bytes name)
        (real_outside tally.old (created_names made.old.items) opened)
        (real_outside tally.new (created_names made.new.items) opened) }
{
    match file_of(answer) {
        Ok(file) => match made.push(MadeFile { name, file }) {
            Ok(()) => Ok(()),
            Err(_) => Err(WriteError::Memory),
        },
        Err(OpenError::Memory) => Err(WriteError::Memory),
        Err(_) => {
            tally.write_faults = tally.write_faults.saturating_add(1);
            Err(WriteError::Failed)
        }
    }
}

/// What comes of a write of a piece of that length: none taken is a fault, unless there was none.
#[tactic(auto, unfolding(crate::specs::Only::adds, crate::specs::Outside::streams))]
pub(crate) fn after_write(
    answer: io::Result<usize>,
    most: usize,
    tally: &mut Tally,
) -> Result<usize, WriteError>
    requires { IfOk answer (λ n. n ≤ most) }
    ensures says { result ≡ written_as answer most }
    ensures tally { tally.new
        ≡ record tally.old { write_faults = write_faults_after result tally.old.write_faults } }
    ensures appends { (name bytes : List ℕ) → length bytes ≡ most
        → OverReal (Appends result name bytes) tally.old tally.new }
    ensures shows { (bytes : List ℕ) → length bytes ≡ most
        → OverReal (Shows result bytes) tally.old tally.new }
{
    match answer {
        Ok(n) if n > 0 || most == 0 => Ok(n),
        _ => {
            tally.write_faults = tally.write_faults.saturating_add(1);
            Err(WriteError::Failed)
        }
    }
}

/// What comes of a complaint of that length: None stands for bytes that are no text.
#[tactic(auto, unfolding(crate::specs::Outside::streams))]
pub(crate) fn after_complaint(
    answer: Option<io::Result<()>>,
    most: usize,
    tally: &mut Tally,
) -> Result<usize, WriteError>
    ensures says { result ≡ complained_as answer most }
    ensures tally { tally.new ≡ record tally.old {
      write_faults = write_faults_after result tally.old.write_faults;
      complain_faults = write_faults_after result tally.old.complain_faults;
    } }
    ensures room { (bytes : List ℕ) → length bytes ≡ most
        → OverReal (Complains result bytes) tally.old tally.new }
{
    match answer {
        Some(Ok(())) => Ok(most),
        _ => {
            tally.write_faults = tally.write_faults.saturating_add(1);
            tally.complain_faults = tally.complain_faults.saturating_add(1);
            Err(WriteError::Failed)
        }
    }
}
