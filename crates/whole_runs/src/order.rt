// The order in which a run hands its files over, seen where each append of the room fails in turn.
use memory_runs::run;
use room_edge::{MemoryRoom, RoomCall};
use std::alloc::Global;
use std::process::Abort;
use std::test::Fail;

/// A cell that changes every 10 ms, and one that shows its value at once, which goes out.
const MODEL: &str = "[top]
components : g
out : o
link : b@g o
[g]
type : cell
dim : (1,2)
neighbors : g(0,-1) g(0,0)
initialvalue : 0
out : b
link : out@g(0,1) b
localtransition : r
[r]
rule : { 1 - (0,0) } 10 { cellpos(1) = 0 }
rule : { (0,-1) } 0 { t }
";

/// A run with all three files.
const WORDS: &str = "cdpp -m m.ma -t 00:00:00:020 -l log.txt -o out.txt -d f.txt -g g -w 1";

/// What it shows at its end.
const SHOWN: &str = "end 00:00:00:020 cycles 5\n";

/// The files that it makes.
const NAMES: [&str; 3] = ["log.txt", "out.txt", "f.txt"];

/// What it hands over, in its order: of each cycle the log lines and then the output lines, and the
/// frame of an instant when it is over.
const TEXTS: [(&str, &str); 11] = [
    (
        "log.txt",
        "Y / 00:00:00:000 / g(0,0) / out / 0.00000\nY / 00:00:00:000 / g(0,1) / out / 0.00000\n",
    ),
    ("out.txt", "00:00:00:000 o 0.00000\n"),
    ("f.txt", "Time: 00:00:00:000\n+--+\n|00|\n+--+\n\n"),
    ("log.txt", "Y / 00:00:00:010 / g(0,0) / out / 1.00000\n"),
    ("log.txt", "Y / 00:00:00:010 / g(0,1) / out / 1.00000\n"),
    ("out.txt", "00:00:00:010 o 1.00000\n"),
    ("f.txt", "Time: 00:00:00:010\n+--+\n|11|\n+--+\n\n"),
    ("log.txt", "Y / 00:00:00:020 / g(0,0) / out / 0.00000\n"),
    ("log.txt", "Y / 00:00:00:020 / g(0,1) / out / 0.00000\n"),
    ("out.txt", "00:00:00:020 o 0.00000\n"),
    ("f.txt", "Time: 00:00:00:020\n+--+\n|00|\n+--+\n\n"),
];

/// How many bytes an append takes at most.
const PIECE: usize = 16;

/// How many appends all texts take.
const APPENDS: usize = 33;

/// How many appends a text takes.
fn appends_of(text: &str) -> usize {
    text.len().div_ceil(PIECE)
}

/// What a file holds after so many appends.
fn held_after(alloc: Global, name: &str, appends: usize) -> Result<Vec<u8>, Fail> {
    let mut left = appends;
    let mut held = Vec::new(alloc);
    for (file, text) in &TEXTS {
        if *file == name {
            let count = left.saturating_mul(PIECE).min(text.len());
            held.extend_from_slice(&text.as_bytes()[..count])?;
        }
        left = left.saturating_sub(appends_of(text));
    }
    Ok(held)
}

/// The file to which the next append goes, None where all texts are handed over.
fn next_file(appends: usize) -> Option<&'static str> {
    let mut left = appends;
    for (file, text) in &TEXTS {
        if left < appends_of(text) {
            return Some(*file);
        }
        left = left.saturating_sub(appends_of(text));
    }
    None
}

/// How a run ends after so many appends: its status, and what it shows and complains.
fn ending(alloc: Global, appends: usize) -> Result<(u8, &'static str, String), Fail> {
    let mut complained = String::new(alloc);
    let Some(name) = next_file(appends) else {
        return Ok((0, SHOWN, complained));
    };
    complained.push_str("write fault: ")?;
    complained.push_str(name)?;
    complained.push_str("\n")?;
    Ok((5, "", complained))
}

/// Compares the files.
fn are_held(
    rt: &(impl Abort + AllocGlobal),
    room: &MemoryRoom,
    appends: usize,
) -> Result<(), Fail> {
    for name in &NAMES {
        let held = held_after(rt.alloc(), name, appends)?;
        assert_eq!(rt;
            room.made(name).unwrap_or(b"none"),
            held.as_slice(),
            "{name} {appends}"
        );
    }
    Ok(())
}

/// Compares the status and both streams.
fn ends(
    rt: &(impl Abort + AllocGlobal),
    status: u8,
    room: &MemoryRoom,
    appends: usize,
) -> Result<(), Fail> {
    let (wanted, shown, complained) = ending(rt.alloc(), appends)?;
    assert_eq!(rt;
        (status, room.shown(), room.complained()),
        (wanted, shown.as_bytes(), complained.as_bytes()),
        "{appends}"
    );
    Ok(())
}

/// Runs where an append fails after so many.
fn fails_after(
    rt: &(impl Abort + AllocGlobal),
    room: &mut MemoryRoom,
    appends: usize,
) -> Result<(), Fail> {
    room.put_file("m.ma", MODEL.as_bytes())?;
    room.fail(RoomCall::Append, (appends as u64).saturating_add(1))?;
    let status = run(rt.alloc(), WORDS, room)?;
    ends(rt, status.number(), room, appends)?;
    are_held(rt, room, appends)
}

#[test]
fn each_append_fails_in_turn(rt: HostRuntime) -> Result<(), Fail> {
    for appends in 0..APPENDS + 1 {
        let mut room = MemoryRoom::new(rt.alloc(), PIECE);
        fails_after(&rt, &mut room, appends)?;
    }
    Ok(())
}
