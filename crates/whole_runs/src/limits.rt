// Models of the greatest size, and of one more; files that are too long.
use crate::models;
use crate::rows::{Row, answers};
use memory_runs::{put_files, run};
use room_edge::MemoryRoom;
use std::alloc::Global;
use std::process::Abort;
use std::test::Fail;

/// What a run to time 0 shows that has one cycle.
const ONE_CYCLE: &str = "end 00:00:00:000 cycles 1\n";

/// How a rule is refused that is too large.
const LARGE_RULE: &str = "model refused: line 10: 26 TooLarge\n";

/// A model as parts of its text, each so many times, and what its run to time 0 shows and
/// complains.
#[derive(Clone, Copy)]
struct Large<'a> {
    parts: &'a [(&'a str, u32)],
    shown: &'a str,
    complained: &'a str,
}

/// Models of the greatest size, each with one that is larger.
const LARGE: [Large<'static>; 10] = [
    // A number in as many parentheses as there may be, and in one more.
    Large {
        parts: &[
            (models::RULED, 1),
            ("rule : { ", 1),
            ("(", 64),
            ("1", 1),
            (")", 64),
            (" } 100 { t }\n", 1),
        ],
        shown: ONE_CYCLE,
        complained: "",
    },
    Large {
        parts: &[
            (models::RULED, 1),
            ("rule : { ", 1),
            ("(", 65),
            ("1", 1),
            (")", 65),
            (" } 100 { t }\n", 1),
        ],
        shown: "",
        complained: LARGE_RULE,
    },
    // A sum of 2045 numbers with a sign before the first, and of 2046 without it.
    Large {
        parts: &[
            (models::RULED, 1),
            ("rule : {", 1),
            (" + 1", 2045),
            (" } 100 { t }\n", 1),
        ],
        shown: ONE_CYCLE,
        complained: "",
    },
    Large {
        parts: &[
            (models::RULED, 1),
            ("rule : { 1", 1),
            (" + 1", 2045),
            (" } 100 { t }\n", 1),
        ],
        shown: "",
        complained: LARGE_RULE,
    },
    // As many rules as a section may have, and one more.
    Large {
        parts: &[(models::RULED, 1), ("rule : 0 100 { t }\n", 1024)],
        shown: ONE_CYCLE,
        complained: "",
    },
    Large {
        parts: &[(models::RULED, 1), ("rule : 0 100 { t }\n", 1025)],
        shown: "",
        complained: "model refused: line 1034: 26 TooLarge\n",
    },
    // As many offsets as a group may have, and one more.
    Large {
        parts: &[(models::OFFSETS, 1), (models::ANY_RULE, 1)],
        shown: ONE_CYCLE,
        complained: "",
    },
    Large {
        parts: &[
            (models::OFFSETS, 1),
            ("neighbors : g(1,0)\n", 1),
            (models::ANY_RULE, 1),
        ],
        shown: "",
        complained: "model refused: line 3: 26 TooLarge\n",
    },
    // As many paths of links as there may be, and twice as many.
    Large {
        parts: &[(models::PATHS, 1), (models::DOUBLED, 1)],
        shown: "end 00:00:00:000 cycles 2\n",
        complained: "",
    },
    Large {
        parts: &[(models::PATHS_OUT, 1), (models::DOUBLED, 1)],
        shown: "",
        complained: "model refused: line 0: 18 TooManyRoutes\n",
    },
];

/// Puts a text behind another, so many times.
fn push_times(text: &mut String, part: &str, count: u32) -> Result<(), Fail> {
    for _time in 0..count {
        text.push_str(part)?;
    }
    Ok(())
}

/// Makes the text of a model, and runs it to time 0.
fn large_ends(
    rt: &(impl Abort + AllocGlobal),
    model: &mut String,
    large: &Large<'_>,
) -> Result<(), Fail> {
    for (part, count) in large.parts {
        push_times(model, part, *count)?;
    }
    let row = Row {
        files: &[("m.ma", model.as_str())],
        words: "cdpp -m m.ma -t 00:00:00:000",
        status: if large.complained.is_empty() { 0 } else { 6 },
        shown: large.shown,
        complained: large.complained,
        made: &[],
    };
    answers(rt, &row)
}

#[test]
fn large_models_end(rt: HostRuntime) -> Result<(), Fail> {
    for large in &LARGE {
        let mut model = String::new(rt.alloc());
        large_ends(&rt, &mut model, large)?;
    }
    Ok(())
}

/// How many lines begin with a letter.
fn lines_of(log: &[u8], letter: u8) -> u32 {
    let mut count: u32 = 0;
    let mut begins = true;
    for byte in log {
        if begins && *byte == letter {
            count = count.saturating_add(1);
        }
        begins = *byte == b'\n';
    }
    count
}

/// A quiet space with a blinker in it.
const QUIET_FILES: [(&str, &str); 2] = [
    ("m.ma", models::QUIET),
    ("blink.val", "(25,24) = 1\n(25,25) = 1\n(25,26) = 1\n"),
];

/// Compares what was answered, and how many lines the log has.
fn has_blinked(rt: &impl Abort, status: u8, room: &MemoryRoom) {
    let log = room.made("log.txt").unwrap_or(b"");
    assert_eq!(rt;
        (
            status,
            room.shown(),
            lines_of(log, b'Y'),
            lines_of(log, b'S')
        ),
        (0, b"end 00:00:10:000 cycles 101\n".as_slice(), 2900, 4600)
    );
}

/// Runs the quiet space in the room.
fn blinks(rt: &(impl Abort + AllocGlobal), room: &mut MemoryRoom) -> Result<(), Fail> {
    put_files(room, &QUIET_FILES)?;
    let words = "cdpp -m m.ma -t 00:00:10:000 -l log.txt -L YS";
    let status = run(rt.alloc(), words, room)?;
    has_blinked(rt, status.number(), room);
    Ok(())
}

#[test]
fn a_blinker_in_a_quiet_space(rt: HostRuntime) -> Result<(), Fail> {
    let mut room = MemoryRoom::new(rt.alloc(), 4096);
    blinks(&rt, &mut room)
}

/// Files of a run that reads all three.
const READ_FILES: [(&str, &str); 3] = [
    ("m.ma", models::MAPPED),
    ("v.map", "0 1"),
    ("e.txt", "00:00:00:000 p 1\n"),
];

/// The words of that run.
const READ_WORDS: &str = "cdpp -m m.ma -t 00:00:00:000 -e e.txt";

/// 64 bytes of a comment.
const COMMENT: &str = "%%%%%%%%%%%%%%%%%%%%%%%%%%%%%%%%%%%%%%%%%%%%%%%%%%%%%%%%%%%%%%%%";

/// Four events.
const EVENTS: &str = "0:0:0:0 p 1
0:0:0:0 p 1
0:0:0:0 p 1
0:0:0:0 p 1
";

/// Parts of a text that are a byte more than a file may have.
const LONG_TEXT: [(&str, u32); 2] = [(COMMENT, 262_144), ("%", 1)];

/// Parts of a text that are an event more than a file may have.
const MANY_EVENTS: [(&str, u32); 2] = [(EVENTS, 262_144), ("0:0:0:0 p 1\n", 1)];

/// How a file is refused that is not as it should be: its name, the parts of its text, each so many
/// times, the status and the complaint.
type Long<'a> = (&'a str, &'a [(&'a str, u32)], u8, &'a str);

/// Files that are too long, events that are too many, and values that are too few.
const LONG: [Long<'static>; 5] = [
    ("m.ma", &LONG_TEXT, 6, "model refused: line 0: 27 TooLong\n"),
    (
        "v.map",
        &LONG_TEXT,
        6,
        "model refused: line 7: 27 TooLong\n",
    ),
    (
        "v.map",
        &[("1", 1)],
        6,
        "model refused: line 7: 25 BadInitial\n",
    ),
    (
        "e.txt",
        &LONG_TEXT,
        7,
        "events refused: line 0: 3 TooLarge\n",
    ),
    (
        "e.txt",
        &MANY_EVENTS,
        7,
        "events refused: line 1048577: 3 TooLarge\n",
    ),
];

/// A text of these parts, each so many times.
fn joined(alloc: Global, parts: &[(&str, u32)]) -> Result<String, Fail> {
    let mut text = String::new(alloc);
    for (part, count) in parts {
        push_times(&mut text, part, *count)?;
    }
    Ok(text)
}

/// Runs with one file that is refused.
fn long_is_refused(
    rt: &(impl Abort + AllocGlobal),
    room: &mut MemoryRoom,
    long: &Long<'_>,
) -> Result<(), Fail> {
    let (name, parts, wanted, complained) = *long;
    let text = joined(rt.alloc(), parts)?;
    put_files(room, &READ_FILES)?;
    room.put_file(name, text.as_bytes())?;
    let status = run(rt.alloc(), READ_WORDS, room)?;
    assert_eq!(rt;
        (status.number(), room.complained()),
        (wanted, complained.as_bytes()),
        "{complained}"
    );
    Ok(())
}

#[test]
fn long_files_are_refused(rt: HostRuntime) -> Result<(), Fail> {
    for long in &LONG {
        let mut room = MemoryRoom::new(rt.alloc(), 65536);
        long_is_refused(&rt, &mut room, long)?;
    }
    Ok(())
}
