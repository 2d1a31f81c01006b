// Runs that save and resume in which a call of the room fails, or whose state is cut short.
use crate::saved_models;
use memory_runs::run;
use room_edge::{MemoryRoom, RoomCall};
use std::process::Abort;
use std::test::Fail;

/// A run of the ring: its words, and the log that it makes.
#[derive(Clone, Copy)]
struct Start<'a> {
    words: &'a str,
    log: &'a str,
}

/// It is saved.
const SAVING: Start<'static> = Start {
    words: "cdpp -m ring.ma -t 00:00:00:100 -l log.txt -S s.txt",
    log: saved_models::RING_LOG,
};

/// It goes on.
const RESUMING: Start<'static> = Start {
    words: "cdpp -m ring.ma -t 00:00:00:200 -l log.txt -R old.txt",
    log: saved_models::LATER_LOG,
};

/// It can't go on to an end before its state.
const TOO_EARLY: Start<'static> = Start {
    words: "cdpp -m ring.ma -t 00:00:00:050 -l log.txt -R old.txt",
    log: "",
};

/// What is left of a run: its status, what it shows if that is 0 and complains if not, and how many
/// bytes of the log and of the saved state were made, if they were.
#[derive(Clone, Copy)]
struct Left<'a> {
    status: u8,
    told: &'a str,
    log: Option<usize>,
    state: Option<usize>,
}

/// The first bytes of a text, or all where it has no more.
fn first(text: &str, count: usize) -> &[u8] {
    let bytes = text.as_bytes();
    if count < bytes.len() {
        &bytes[..count]
    } else {
        bytes
    }
}

/// The beginning of a text, where one was made.
fn beginning(text: &str, made: Option<usize>) -> Option<&[u8]> {
    match made {
        Some(count) => Some(first(text, count)),
        None => None,
    }
}

/// Compares what was answered with what is wanted.
fn stands(rt: &impl Abort, status: u8, room: &MemoryRoom, wanted: &Left<'_>, number: u64) {
    let (shown, complained) = if wanted.status == 0 {
        (wanted.told, "")
    } else {
        ("", wanted.told)
    };
    assert_eq!(rt;
        (status, room.shown(), room.complained()),
        (wanted.status, shown.as_bytes(), complained.as_bytes()),
        "{number}"
    );
}

/// Compares the files that were made: beginnings of the log and of the state.
fn are_made(rt: &impl Abort, room: &MemoryRoom, log: &str, wanted: &Left<'_>, number: u64) {
    assert_eq!(rt;
        (room.made("log.txt"), room.made("s.txt")),
        (
            beginning(log, wanted.log),
            beginning(saved_models::RING_STATE, wanted.state)
        ),
        "{number}"
    );
}

/// Runs the words in the room, over the ring and these bytes of a state, and compares what is left.
fn leaves(
    rt: &(impl Abort + AllocGlobal),
    start: &Start<'_>,
    state: &[u8],
    room: &mut MemoryRoom,
    wanted: &Left<'_>,
    number: u64,
) -> Result<(), Fail> {
    room.put_file("ring.ma", saved_models::RING.as_bytes())?;
    room.put_file("old.txt", state)?;
    let status = run(rt.alloc(), start.words, room)?;
    stands(rt, status.number(), room, wanted, number);
    are_made(rt, room, start.log, wanted, number);
    Ok(())
}

// How it is told that a file is not read, and not written.
const MODEL_UNREAD: &str = "read fault: ring.ma\n";

const STATE_UNREAD: &str = "read fault: old.txt\n";

const LOG_FAULT: &str = "write fault: log.txt\n";

const STATE_FAULT: &str = "write fault: s.txt\n";

const SHOWN_FAULT: &str = "write fault: standard output\n";

// What is shown at the end.
const SAVED: &str = "end 00:00:00:100 cycles 2\n";

const RESUMED: &str = "end 00:00:00:200 cycles 1\n";

/// A run in which one call of the room fails: the run, the kind and number of that call, and what is
/// left.
type Fault<'a> = (
    &'a Start<'a>,
    RoomCall,
    u64,
    u8,
    &'a str,
    Option<usize>,
    Option<usize>,
);

/// The ring's model has 271 bytes, which are five pieces, and the end; the cycles of its log have
/// 135 and 90 bytes, and the state 163.
const SAVING_FAULTS: [Fault<'static>; 20] = [
    (&SAVING, RoomCall::Open, 1, 4, MODEL_UNREAD, None, None),
    (&SAVING, RoomCall::Read, 1, 4, MODEL_UNREAD, None, None),
    (&SAVING, RoomCall::Read, 2, 4, MODEL_UNREAD, None, None),
    (&SAVING, RoomCall::Read, 3, 4, MODEL_UNREAD, None, None),
    (&SAVING, RoomCall::Read, 4, 4, MODEL_UNREAD, None, None),
    (&SAVING, RoomCall::Read, 5, 4, MODEL_UNREAD, None, None),
    (&SAVING, RoomCall::Read, 6, 4, MODEL_UNREAD, None, None),
    (&SAVING, RoomCall::Read, 7, 0, SAVED, Some(225), Some(163)),
    (&SAVING, RoomCall::Create, 1, 5, LOG_FAULT, None, None),
    (&SAVING, RoomCall::Create, 2, 5, STATE_FAULT, Some(0), None),
    (&SAVING, RoomCall::Append, 1, 5, LOG_FAULT, Some(0), Some(0)),
    (
        &SAVING,
        RoomCall::Append,
        2,
        5,
        LOG_FAULT,
        Some(64),
        Some(0),
    ),
    (
        &SAVING,
        RoomCall::Append,
        3,
        5,
        LOG_FAULT,
        Some(128),
        Some(0),
    ),
    (
        &SAVING,
        RoomCall::Append,
        4,
        5,
        LOG_FAULT,
        Some(135),
        Some(0),
    ),
    (
        &SAVING,
        RoomCall::Append,
        5,
        5,
        LOG_FAULT,
        Some(199),
        Some(0),
    ),
    (
        &SAVING,
        RoomCall::Append,
        6,
        5,
        STATE_FAULT,
        Some(225),
        Some(0),
    ),
    (
        &SAVING,
        RoomCall::Append,
        7,
        5,
        STATE_FAULT,
        Some(225),
        Some(64),
    ),
    (
        &SAVING,
        RoomCall::Append,
        8,
        5,
        STATE_FAULT,
        Some(225),
        Some(128),
    ),
    (&SAVING, RoomCall::Append, 9, 0, SAVED, Some(225), Some(163)),
    (
        &SAVING,
        RoomCall::Show,
        1,
        5,
        SHOWN_FAULT,
        Some(225),
        Some(163),
    ),
];

/// The state is read in three pieces, and the end; the log has 135 bytes.
const RESUMING_FAULTS: [Fault<'static>; 15] = [
    (&RESUMING, RoomCall::Open, 1, 4, MODEL_UNREAD, None, None),
    (&RESUMING, RoomCall::Read, 6, 4, MODEL_UNREAD, None, None),
    (&RESUMING, RoomCall::Open, 2, 4, STATE_UNREAD, None, None),
    (&RESUMING, RoomCall::Read, 7, 4, STATE_UNREAD, None, None),
    (&RESUMING, RoomCall::Read, 8, 4, STATE_UNREAD, None, None),
    (&RESUMING, RoomCall::Read, 9, 4, STATE_UNREAD, None, None),
    (&RESUMING, RoomCall::Read, 10, 4, STATE_UNREAD, None, None),
    (&RESUMING, RoomCall::Read, 11, 0, RESUMED, Some(135), None),
    (&RESUMING, RoomCall::Create, 1, 5, LOG_FAULT, None, None),
    (&RESUMING, RoomCall::Append, 1, 5, LOG_FAULT, Some(0), None),
    (&RESUMING, RoomCall::Append, 2, 5, LOG_FAULT, Some(64), None),
    (
        &RESUMING,
        RoomCall::Append,
        3,
        5,
        LOG_FAULT,
        Some(128),
        None,
    ),
    (&RESUMING, RoomCall::Append, 4, 0, RESUMED, Some(135), None),
    (
        &RESUMING,
        RoomCall::Show,
        1,
        5,
        SHOWN_FAULT,
        Some(135),
        None,
    ),
    (&TOO_EARLY, RoomCall::Complain, 1, 5, "", None, None),
];

/// Runs where one call of the room fails.
fn fails_in(
    rt: &(impl Abort + AllocGlobal),
    room: &mut MemoryRoom,
    fault: &Fault<'_>,
) -> Result<(), Fail> {
    let (start, call, number, status, told, log, state) = *fault;
    room.fail(call, number)?;
    let wanted = Left {
        status,
        told,
        log,
        state,
    };
    leaves(
        rt,
        start,
        saved_models::RING_STATE.as_bytes(),
        room,
        &wanted,
        number,
    )
}

/// Runs where each of these calls fails.
fn all_fail(rt: &(impl Abort + AllocGlobal), faults: &[Fault<'_>]) -> Result<(), Fail> {
    for fault in faults {
        let mut room = MemoryRoom::new(rt.alloc(), 64);
        fails_in(rt, &mut room, fault)?;
    }
    Ok(())
}

#[test]
fn calls_fail(rt: HostRuntime) -> Result<(), Fail> {
    all_fail(&rt, &SAVING_FAULTS)?;
    all_fail(&rt, &RESUMING_FAULTS)
}

/// From how many bytes of the state to how many, and what each of these beginnings leaves.
type Cut<'a> = (usize, usize, u8, &'a str, Option<usize>);

/// The state, cut at each byte: the line that is cut is refused.
const CUTS: [Cut<'static>; 7] = [
    (0, 8, 14, "state refused: line 1: 1 BadStateLine\n", None),
    (8, 24, 14, "state refused: line 2: 1 BadStateLine\n", None),
    (24, 69, 14, "state refused: line 3: 1 BadStateLine\n", None),
    (69, 114, 14, "state refused: line 4: 1 BadStateLine\n", None),
    (
        114,
        159,
        14,
        "state refused: line 5: 1 BadStateLine\n",
        None,
    ),
    (
        159,
        163,
        14,
        "state refused: line 6: 1 BadStateLine\n",
        None,
    ),
    (163, 164, 0, RESUMED, Some(135)),
];

/// Goes on from each of these beginnings of the state.
fn cut_leaves(rt: &(impl Abort + AllocGlobal), cut: &Cut<'_>) -> Result<(), Fail> {
    let (from, to, status, told, log) = *cut;
    for count in from..to {
        let mut room = MemoryRoom::new(rt.alloc(), 4096);
        let wanted = Left {
            status,
            told,
            log,
            state: None,
        };
        let state = first(saved_models::RING_STATE, count);
        leaves(rt, &RESUMING, state, &mut room, &wanted, count as u64)?;
    }
    Ok(())
}

#[test]
fn states_are_cut(rt: HostRuntime) -> Result<(), Fail> {
    for cut in &CUTS {
        cut_leaves(&rt, cut)?;
    }
    Ok(())
}
