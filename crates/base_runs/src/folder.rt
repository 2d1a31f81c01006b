// The real folder: two files that are made in turns, with both streams between.
ghost use Rattle.std.specs.Prelude.{◌≡◌, ◌∷◌, ◌++◌, [], Contains, OnOk};

use room_edge::{FolderRoom, Room, WriteAll, WriteError, complain_all, show_all, write_all};
use std::alloc::{Allocator, Global};
use std::fmt::Display;
use std::fs::{File, Metadata, OpenOptions};
use std::io::{ErrorKind, Write};
use std::process::Abort;
use std::rt::Files;
use std::test::Fail;
use std::{fs, io};

/// The file that stands for standard output, and the one that stands for standard error.
const SHOWN: &str = "shown.txt";

const COMPLAINED: &str = "complained.txt";

/// The real runtime, but for the streams, which are files of the folder.
#[derive(Drop)]
struct Kept {
    rt: HostRuntime,
}

impl Kept {
    /// Adds the front of a piece to a file.
    fn add(&self, name: &str, bytes: &[u8]) -> io::Result<usize> {
        let mut file = OpenOptions::new()
            .append(true)
            .create(true)
            .open(&self.rt, name)?;
        file.write(bytes)
    }
}

impl Alloc for Kept {
    type A = Global;

    fn alloc(&self) -> Global {
        self.rt.alloc()
    }
}

impl Print for Kept {
    fn print<D: Display + Drop>(&self, _value: D) -> io::Result<()> {
        Err(io::Error::from(ErrorKind::Unsupported))
    }

    fn println<D: Display + Drop>(&self, _value: D) -> io::Result<()> {
        Err(io::Error::from(ErrorKind::Unsupported))
    }

    fn write_all(&self, bytes: &[u8]) -> io::Result<()> {
        self.add(SHOWN, bytes)?;
        Ok(())
    }
}

impl Eprint for Kept {
    fn eprint<D: Display + Drop>(&self, value: D) -> io::Result<()> {
        let Ok(text) = format!(in self.rt.alloc(); "{value}") else {
            return Err(io::Error::from(ErrorKind::OutOfMemory));
        };
        self.add(COMPLAINED, text.as_bytes())?;
        Ok(())
    }

    fn eprintln<D: Display + Drop>(&self, _value: D) -> io::Result<()> {
        Err(io::Error::from(ErrorKind::Unsupported))
    }
}

impl Files for Kept {
    type File = File;

    type Dir = <HostRuntime as Files>::Dir;

    fn open_file(&self, how: &OpenOptions, path: &str) -> io::Result<File> {
        self.rt.open_file(how, path)
    }

    fn open_dir(&self, path: &str) -> io::Result<<HostRuntime as Files>::Dir> {
        self.rt.open_dir(path)
    }

    fn metadata(&self, path: &str) -> io::Result<Metadata> {
        self.rt.metadata(path)
    }

    fn symlink_metadata(&self, path: &str) -> io::Result<Metadata> {
        self.rt.symlink_metadata(path)
    }

    fn copy(&self, from: &str, to: &str) -> io::Result<u64> {
        self.rt.copy(from, to)
    }

    fn rename(&self, from: &str, to: &str) -> io::Result<()> {
        self.rt.rename(from, to)
    }

    fn remove_file(&self, path: &str) -> io::Result<()> {
        self.rt.remove_file(path)
    }

    fn create_dir(&self, path: &str) -> io::Result<()> {
        self.rt.create_dir(path)
    }

    fn remove_dir(&self, path: &str) -> io::Result<()> {
        self.rt.remove_dir(path)
    }

    fn remove_dir_all<B: Allocator>(&self, alloc: B, path: &str) -> io::Result<()> {
        self.rt.remove_dir_all(alloc, path)
    }
}

/// Makes an empty file.
fn begin<R: Room>(room: &mut R, name: &str) -> Result<(), WriteAll>
    ensures { OnOk result ((R.outside room.new).created
        ≡ (R.outside room.old).created ++ name.now ∷ []) }
{
    match room.create(name) {
        Ok(()) => Ok(()),
        Err(WriteError::Failed) => Err(WriteAll::WriteFault(0)),
        Err(WriteError::Memory) => Err(WriteAll::Memory(0)),
    }
}

/// Adds a piece to a file, then one to standard output and one to standard error.
fn turn<R: Room>(room: &mut R, name: &str, pieces: (&str, &str, &str)) -> Result<(), WriteAll>
    requires { Contains (R.outside room.old).created name.now }
    ensures { (R.outside room.new).created ≡ (R.outside room.old).created }
{
    write_all(room, name, pieces.0.as_bytes())?;
    show_all(room, pieces.1.as_bytes())?;
    complain_all(room, pieces.2.as_bytes())
}

/// Makes two files, and adds to them in turns.
fn take_turns<R: Room>(room: &mut R) -> Result<(), WriteAll> {
    begin(room, "one.txt")?;
    begin(room, "two.txt")?;
    turn(room, "one.txt", ("a ", "shown first, ", "said first, "))?;
    turn(room, "two.txt", ("b ", "then ", "then "))?;
    turn(room, "one.txt", ("c ", "and ", "and "))?;
    turn(room, "two.txt", ("d ", "last", "last"))
}

/// What the files hold in the end.
const HELD: [(&str, &str); 4] = [
    ("one.txt", "a c "),
    ("two.txt", "b d "),
    (SHOWN, "shown first, then and last"),
    (COMPLAINED, "said first, then and last"),
];

/// Compares a file, and takes it away.
fn is_held(rt: &(impl Abort + AllocGlobal + Files), name: &str, text: &str) -> Result<(), Fail> {
    let held = fs::read(rt, name)?;
    assert_eq!(rt; held.as_slice(), text.as_bytes(), "{name}");
    fs::remove_file(rt, name)?;
    Ok(())
}

#[test]
fn two_files_in_turns_and_both_streams(rt: HostRuntime) -> Result<(), Fail> {
    let mut room = FolderRoom::new(Kept { rt: rt.clone()? });
    assert!(rt; take_turns(&mut room).is_ok());
    for (name, text) in &HELD {
        is_held(&rt, name, text)?;
    }
    Ok(())
}
