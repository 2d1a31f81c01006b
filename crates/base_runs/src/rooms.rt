// Stories of rooms: each call once with ample memory, and calls that fail.
use room_edge::{
    FolderRoom, MemoryRoom, ReadWhole, Room, RoomCall, SureRoom, WriteAll, WriteError,
    complain_all, read_whole, show_all, write_all,
};
use std::fs;
use std::process::Abort;
use std::test::Fail;

// Writes two pieces to a new file.
fn make<R: Room>(room: &mut R, name: &str, first: &[u8], second: &[u8]) -> Result<(), WriteAll> {
    match room.create(name) {
        Ok(()) => {}
        Err(WriteError::Failed) => return Err(WriteAll::WriteFault(0)),
        Err(WriteError::Memory) => return Err(WriteAll::Memory(0)),
    }
    write_all(room, name, first)?;
    write_all(room, name, second)
}

// In one line what came of a read: the bytes, or a word and a number.
fn read_story(read: &Result<Vec<u8>, ReadWhole>) -> (&[u8], u64) {
    match read {
        Ok(bytes) => (bytes.as_slice(), 0),
        Err(ReadWhole::Missing) => (b"missing", 0),
        Err(ReadWhole::ReadFault) => (b"read fault", 0),
        Err(ReadWhole::TooLong(n)) => (b"too long", *n),
        Err(ReadWhole::Memory) => (b"memory", 0),
    }
}

// In one line what came of a write: a word, and how many bytes were written before.
fn write_story(written: &Result<(), WriteAll>) -> (&'static [u8], usize) {
    match written {
        Ok(()) => (b"whole", 0),
        Err(WriteAll::WriteFault(n)) => (b"write fault", *n),
        Err(WriteAll::Memory(n)) => (b"memory", *n),
    }
}

// The size of the pieces of a room with the file `abc`, the call that fails, the limit of a read,
// and what comes of it.
type Read<'a> = (usize, Option<(RoomCall, u64)>, u32, (&'a [u8], u64));

const READS: [Read<'static>; 5] = [
    (64, None, 3, (b"abc", 0)),
    (64, None, 2, (b"too long", 3)),
    (1, None, 1, (b"too long", 2)),
    (2, Some((RoomCall::Read, 2)), 3, (b"read fault", 0)),
    (2, Some((RoomCall::Open, 1)), 3, (b"read fault", 0)),
];

// Puts the file `abc` into a room, of which a call fails.
fn prepare(room: &mut MemoryRoom, fails: Option<(RoomCall, u64)>) -> Result<(), Fail> {
    room.put_file("abc.txt", b"abc")?;
    if let Some((call, number)) = fails {
        room.fail(call, number)?;
    }
    Ok(())
}

// Reads the file `abc` in the room.
fn reads(
    rt: &(impl Abort + AllocGlobal),
    room: &mut MemoryRoom,
    wanted: &Read<'_>,
) -> Result<(), Fail> {
    let (_, fails, limit, story) = *wanted;
    prepare(room, fails)?;
    let read = read_whole(rt.alloc(), room, "abc.txt", limit);
    assert_eq!(rt; read_story(&read), story);
    Ok(())
}

#[test]
fn reads_within_a_limit_past_it_and_failing(rt: HostRuntime) -> Result<(), Fail> {
    for wanted in &READS {
        let mut room = MemoryRoom::new(rt.alloc(), wanted.0.max(1));
        reads(&rt, &mut room, wanted)?;
    }
    Ok(())
}

// The call that fails in a room with pieces of one byte, what comes of writing `abc`, and the file.
type Written<'a> = (RoomCall, u64, (&'a [u8], usize), &'a [u8]);

const WRITTEN: [Written<'static>; 3] = [
    (RoomCall::Append, 4, (b"whole", 0), b"abc"),
    (RoomCall::Append, 2, (b"write fault", 1), b"a"),
    (RoomCall::Create, 1, (b"write fault", 0), b"none"),
];

// Compares what came of writing.
fn is_written(
    rt: &impl Abort,
    written: &Result<(), WriteAll>,
    room: &MemoryRoom,
    wanted: &Written<'_>,
) {
    assert_eq!(rt;
        (write_story(written), room.made("a.txt").unwrap_or(b"none")),
        (wanted.2, wanted.3)
    );
}

// Writes `abc` in the room.
fn writes(rt: &impl Abort, room: &mut MemoryRoom, wanted: &Written<'_>) -> Result<(), Fail> {
    room.fail(wanted.0, wanted.1)?;
    let written = make(room, "a.txt", b"abc", b"");
    is_written(rt, &written, room, wanted);
    Ok(())
}

#[test]
fn writes_that_are_whole_or_fail(rt: HostRuntime) -> Result<(), Fail> {
    for wanted in &WRITTEN {
        let mut room = MemoryRoom::new(rt.alloc(), 1);
        writes(&rt, &mut room, wanted)?;
    }
    Ok(())
}

#[test]
fn both_streams(rt: HostRuntime) {
    let mut room = SureRoom::new(rt.alloc(), 1);
    let shows = show_all(&mut room, b"ab").is_ok();
    let complains = complain_all(&mut room, b"cd").is_ok();
    assert_eq!(rt;
        (shows, complains, room.shown(), room.complained()),
        (true, true, b"ab".as_slice(), b"cd".as_slice())
    );
}

// What is written in a real folder. Where there is no full device, no file of that name can be made
// either.
const FOLDER_WRITES: [(&str, (&[u8], usize)); 3] = [
    ("log.txt", (b"whole", 0)),
    (".", (b"write fault", 0)),
    ("/dev/full", (b"write fault", 0)),
];

// What is read there then.
const FOLDER_READS: [(&str, (&[u8], u64)); 3] = [
    ("log.txt", (b"one two", 0)),
    ("none.txt", (b"missing", 0)),
    (".", (b"read fault", 0)),
];

fn folder_writes<R: Room>(rt: &impl Abort, room: &mut R) {
    for (name, story) in &FOLDER_WRITES {
        assert_eq!(rt; write_story(&make(room, name, b"one ", b"two")), *story);
    }
}

fn folder_reads<R: Room>(rt: &(impl Abort + AllocGlobal), room: &mut R) {
    for (name, story) in &FOLDER_READS {
        assert_eq!(rt; read_story(&read_whole(rt.alloc(), room, name, 7)), *story);
    }
}

#[test]
fn a_real_folder(rt: HostRuntime) -> Result<(), Fail> {
    let mut room = FolderRoom::new(rt.clone()?);
    folder_writes(&rt, &mut room);
    folder_reads(&rt, &mut room);
    fs::remove_file(&rt, "log.txt")?;
    Ok(())
}
