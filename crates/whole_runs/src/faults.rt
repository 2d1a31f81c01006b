// Runs of the two programs in which a call of the room fails, or whose file is cut short.
use memory_runs::models::{RING, RING_LOG, SERVED, USAGE};
use memory_runs::run;
use room_edge::{MemoryRoom, RoomCall};
use std::process::Abort;
use std::test::Fail;

/// A run over one file: its name, its text, and the words.
#[derive(Clone, Copy)]
struct Start<'a> {
    name: &'a str,
    text: &'a str,
    words: &'a str,
}

/// A run of the ring.
const RING_RUN: Start<'static> = Start {
    name: "row1.ma",
    text: RING,
    words: "cdpp -m row1.ma -t 00:00:00:100 -l log.txt",
};

/// A run that makes two files.
const SERVED_RUN: Start<'static> = Start {
    name: "t.ma",
    text: SERVED,
    words: "cdpp -m t.ma -t 00:00:00:000 -l log.txt -o out.txt -L YXS",
};

/// A run that is refused by its words.
const REFUSED_RUN: Start<'static> = Start {
    name: "row1.ma",
    text: RING,
    words: "cdpp -m row1.ma",
};

/// A drawing of the ring's log.
const DRAWING: Start<'static> = Start {
    name: "log.txt",
    text: RING_LOG,
    words: "drawlog -l log.txt -g line -s 1,3",
};

/// What a run of the ring shows.
const RING_SHOWN: &str = "end 00:00:00:100 cycles 2\n";

/// How it is told that the model is not read.
const UNREAD: &str = "read fault: row1.ma\n";

/// How it is told that the log is not written.
const LOG_FAULT: &str = "write fault: log.txt\n";

/// What is left of a run: its status, what it shows if that is 0 and complains if not, and how many
/// bytes of the ring's log were made, if it was.
#[derive(Clone, Copy)]
struct Left<'a> {
    status: u8,
    told: &'a str,
    log: Option<usize>,
}

/// The first bytes of a text, or all where it has no more.
fn first(text: &str, count: usize) -> &[u8] {
    let bytes = text.as_bytes();
    if count < bytes.len() {
        &bytes[..count]
    } else {
        bytes
    }
}

/// The beginning of the ring's log that is left.
fn log_of(wanted: &Left<'_>) -> Option<&'static [u8]> {
    match wanted.log {
        Some(count) => Some(first(RING_LOG, count)),
        None => None,
    }
}

/// Compares what was answered with what is wanted.
fn stands(rt: &impl Abort, status: u8, room: &MemoryRoom, wanted: &Left<'_>, number: u64) {
    let (shown, complained) = if wanted.status == 0 {
        (wanted.told, "")
    } else {
        ("", wanted.told)
    };
    assert_eq!(rt;
        (status, room.shown(), room.complained()),
        (wanted.status, shown.as_bytes(), complained.as_bytes()),
        "{number}"
    );
}

/// Compares the files that were made: the beginning of the ring's log, and no other.
fn are_made(rt: &impl Abort, room: &MemoryRoom, wanted: &Left<'_>, number: u64) {
    assert_eq!(rt;
        (room.made("log.txt"), room.made("out.txt")),
        (log_of(wanted), None),
        "{number}"
    );
}

/// Runs the words in the room, and compares what is left.
fn leaves(
    rt: &(impl Abort + AllocGlobal),
    words: &str,
    room: &mut MemoryRoom,
    wanted: &Left<'_>,
    number: u64,
) -> Result<(), Fail> {
    let status = run(rt.alloc(), words, room)?;
    stands(rt, status.number(), room, wanted, number);
    are_made(rt, room, wanted, number);
    Ok(())
}

/// A run in which one call of the room fails, the kind and number of that call, and what is left.
type Fault<'a> = (&'a Start<'a>, RoomCall, u64, u8, &'a str, Option<usize>);

/// The ring's model has 271 bytes, which are five pieces, and the end; the first cycle of its log
/// has 135 bytes, the second 90.
const FAULTS: [Fault<'static>; 20] = [
    (&RING_RUN, RoomCall::Open, 1, 4, UNREAD, None),
    (&RING_RUN, RoomCall::Read, 1, 4, UNREAD, None),
    (&RING_RUN, RoomCall::Read, 2, 4, UNREAD, None),
    (&RING_RUN, RoomCall::Read, 3, 4, UNREAD, None),
    (&RING_RUN, RoomCall::Read, 4, 4, UNREAD, None),
    (&RING_RUN, RoomCall::Read, 5, 4, UNREAD, None),
    (&RING_RUN, RoomCall::Read, 6, 4, UNREAD, None),
    (&RING_RUN, RoomCall::Read, 7, 0, RING_SHOWN, Some(225)),
    (&RING_RUN, RoomCall::Create, 1, 5, LOG_FAULT, None),
    (&RING_RUN, RoomCall::Append, 1, 5, LOG_FAULT, Some(0)),
    (&RING_RUN, RoomCall::Append, 2, 5, LOG_FAULT, Some(64)),
    (&RING_RUN, RoomCall::Append, 3, 5, LOG_FAULT, Some(128)),
    (&RING_RUN, RoomCall::Append, 4, 5, LOG_FAULT, Some(135)),
    (&RING_RUN, RoomCall::Append, 5, 5, LOG_FAULT, Some(199)),
    (&RING_RUN, RoomCall::Append, 6, 0, RING_SHOWN, Some(225)),
    (
        &RING_RUN,
        RoomCall::Show,
        1,
        5,
        "write fault: standard output\n",
        Some(225),
    ),
    (&SERVED_RUN, RoomCall::Create, 1, 5, LOG_FAULT, None),
    (
        &SERVED_RUN,
        RoomCall::Create,
        2,
        5,
        "write fault: out.txt\n",
        Some(0),
    ),
    (&REFUSED_RUN, RoomCall::Complain, 1, 5, "", None),
    (&REFUSED_RUN, RoomCall::Complain, 99, 2, USAGE, None),
];

/// Runs where one call of the room fails.
fn fails_in(
    rt: &(impl Abort + AllocGlobal),
    room: &mut MemoryRoom,
    fault: &Fault<'_>,
) -> Result<(), Fail> {
    let (start, call, number, status, told, log) = *fault;
    room.put_file(start.name, start.text.as_bytes())?;
    room.fail(call, number)?;
    leaves(rt, start.words, room, &Left { status, told, log }, number)
}

#[test]
fn calls_fail(rt: HostRuntime) -> Result<(), Fail> {
    for fault in &FAULTS {
        let mut room = MemoryRoom::new(rt.alloc(), 64);
        fails_in(&rt, &mut room, fault)?;
    }
    Ok(())
}

/// From how many bytes of a file to how many, and what each of these beginnings leaves.
type Cut<'a> = (usize, usize, u8, &'a str, Option<usize>);

/// The ring's model, cut at each byte.
const RING_CUTS: [Cut<'static>; 38] = [
    (0, 1, 6, "model refused: line 0: 3 NoTop\n", None),
    (1, 5, 6, "model refused: line 1: 1 BadLine\n", None),
    (5, 7, 6, "model refused: line 1: 6 MissingKey\n", None),
    (7, 18, 6, "model refused: line 2: 1 BadLine\n", None),
    (18, 20, 6, "model refused: line 1: 6 MissingKey\n", None),
    (
        20,
        25,
        6,
        "model refused: line 2: 8 UnknownComponent\n",
        None,
    ),
    (25, 30, 6, "model refused: line 3: 1 BadLine\n", None),
    (30, 32, 6, "model refused: line 3: 6 MissingKey\n", None),
    (32, 37, 6, "model refused: line 4: 1 BadLine\n", None),
    (37, 42, 6, "model refused: line 4: 7 BadValue\n", None),
    (42, 44, 6, "model refused: line 3: 6 MissingKey\n", None),
    (44, 48, 6, "model refused: line 5: 1 BadLine\n", None),
    (48, 56, 6, "model refused: line 3: 6 MissingKey\n", None),
    (56, 62, 6, "model refused: line 6: 1 BadLine\n", None),
    (62, 74, 6, "model refused: line 3: 6 MissingKey\n", None),
    (74, 91, 6, "model refused: line 7: 1 BadLine\n", None),
    (91, 97, 6, "model refused: line 3: 6 MissingKey\n", None),
    (97, 104, 6, "model refused: line 8: 1 BadLine\n", None),
    (104, 114, 6, "model refused: line 3: 6 MissingKey\n", None),
    (114, 124, 6, "model refused: line 9: 1 BadLine\n", None),
    (124, 157, 6, "model refused: line 3: 6 MissingKey\n", None),
    (157, 170, 6, "model refused: line 10: 1 BadLine\n", None),
    (170, 174, 6, "model refused: line 3: 6 MissingKey\n", None),
    (174, 190, 6, "model refused: line 11: 1 BadLine\n", None),
    (190, 198, 6, "model refused: line 3: 6 MissingKey\n", None),
    (198, 214, 6, "model refused: line 12: 1 BadLine\n", None),
    (214, 216, 6, "model refused: line 12: 7 BadValue\n", None),
    (216, 218, 6, "model refused: line 12: 28 NoSection\n", None),
    (218, 220, 6, "model refused: line 13: 1 BadLine\n", None),
    (
        220,
        222,
        8,
        "no true rule: line(0,0) at 00:00:00:000\n",
        Some(0),
    ),
    (222, 227, 6, "model refused: line 14: 1 BadLine\n", None),
    (227, 235, 6, "model refused: line 14: 19 BadRule\n", None),
    (235, 251, 6, "model refused: line 14: 1 BadLine\n", None),
    (
        251,
        253,
        8,
        "no true rule: line(0,0) at 00:00:00:100\n",
        Some(135),
    ),
    (253, 258, 6, "model refused: line 15: 1 BadLine\n", None),
    (258, 266, 6, "model refused: line 15: 19 BadRule\n", None),
    (266, 270, 6, "model refused: line 15: 1 BadLine\n", None),
    (270, 272, 0, RING_SHOWN, Some(225)),
];

/// The ring's log, cut at each byte.
const DRAWING_CUTS: [Cut<'static>; 11] = [
    (0, 1, 0, "", None),
    (1, 45, 13, "log refused: line 1\n", None),
    (
        45,
        46,
        0,
        "Time: 00:00:00:000\n+---------+\n|  0  ?  ?|\n+---------+\n\n",
        None,
    ),
    (46, 90, 13, "log refused: line 2\n", None),
    (
        90,
        91,
        0,
        "Time: 00:00:00:000\n+---------+\n|  0  1  ?|\n+---------+\n\n",
        None,
    ),
    (91, 135, 13, "log refused: line 3\n", None),
    (
        135,
        136,
        0,
        "Time: 00:00:00:000\n+---------+\n|  0  1  0|\n+---------+\n\n",
        None,
    ),
    (136, 180, 13, "log refused: line 4\n", None),
    (
        180,
        181,
        0,
        "Time: 00:00:00:000
+---------+
|  0  1  0|
+---------+

Time: 00:00:00:100
+---------+
|  1  1  0|
+---------+

",
        None,
    ),
    (181, 225, 13, "log refused: line 5\n", None),
    (
        225,
        226,
        0,
        "Time: 00:00:00:000
+---------+
|  0  1  0|
+---------+

Time: 00:00:00:100
+---------+
|  1  1  1|
+---------+

",
        None,
    ),
];

/// Runs on the first bytes of a file.
fn cut_in(
    rt: &(impl Abort + AllocGlobal),
    room: &mut MemoryRoom,
    start: &Start<'_>,
    count: usize,
    wanted: &Left<'_>,
) -> Result<(), Fail> {
    room.put_file(start.name, first(start.text, count))?;
    leaves(rt, start.words, room, wanted, count as u64)
}

/// Runs on each of these beginnings of a file.
fn cut_leaves(
    rt: &(impl Abort + AllocGlobal),
    start: &Start<'_>,
    cut: &Cut<'_>,
) -> Result<(), Fail> {
    let (from, to, status, told, log) = *cut;
    for count in from..to {
        let mut room = MemoryRoom::new(rt.alloc(), 64);
        cut_in(rt, &mut room, start, count, &Left { status, told, log })?;
    }
    Ok(())
}

/// Runs on each row's beginnings of a file.
fn cuts_leave(
    rt: &(impl Abort + AllocGlobal),
    start: &Start<'_>,
    cuts: &[Cut<'_>],
) -> Result<(), Fail> {
    for cut in cuts {
        cut_leaves(rt, start, cut)?;
    }
    Ok(())
}

#[test]
fn files_are_cut(rt: HostRuntime) -> Result<(), Fail> {
    cuts_leave(&rt, &RING_RUN, &RING_CUTS)?;
    cuts_leave(&rt, &DRAWING, &DRAWING_CUTS)
}
