// How models are refused, and the ring with another line.
use crate::stopped_models;
use memory_runs::models::RING;
use memory_runs::run;
use room_edge::MemoryRoom;
use std::process::Abort;
use std::test::Fail;

/// Models, and how they are refused.
const REFUSED: [(&str, &str); 11] = [
    (
        "[top]\ncomponents : q@queue\nlink : out@q in@q\n",
        "model refused: line 3: 15 SelfLink\n",
    ),
    (
        "[top]\ncomponents : q@queue\nin : a\nout : b\nlink : a b\n",
        "model refused: line 5: 16 PassThrough\n",
    ),
    (
        "[top]\ncomponents : a@queue b@queue\ncomponents : c@queue\n",
        "model refused: line 3: 12 OutOfStock\n",
    ),
    (
        "[top]\ncomponents : a@server\n",
        "model refused: line 2: 11 UnknownClass\n",
    ),
    (
        stopped_models::RANDOM,
        "model refused: line 10: 21 RandomRefused\n",
    ),
    (
        stopped_models::STRANGER,
        "model refused: line 10: 23 NotANeighbour\n",
    ),
    (
        stopped_models::MIXED,
        "model refused: line 10: 20 BadSort\n",
    ),
    (
        stopped_models::NO_FUNCTION,
        "model refused: line 10: 22 UnknownFunction\n",
    ),
    (stopped_models::OPEN, "model refused: line 10: 1 BadLine\n"),
    ("", "model refused: line 0: 3 NoTop\n"),
    (
        "[top]\ncomponents :\n",
        "model refused: line 1: 6 MissingKey\n",
    ),
];

/// The words of each run.
const WORDS: &str = "cdpp -m m.ma -t 00:00:00:100 -l log.txt";

/// Compares what was answered with a refusal, after which no file is made.
fn is_refused(rt: &impl Abort, status: u8, room: &MemoryRoom, model: &str, refused: &str) {
    assert_eq!(rt;
        (
            status,
            room.shown(),
            room.complained(),
            room.made("log.txt")
        ),
        (6, b"".as_slice(), refused.as_bytes(), None),
        "{model}"
    );
}

/// Runs a model in the room, which is refused.
fn refuses_in(
    rt: &(impl Abort + AllocGlobal),
    room: &mut MemoryRoom,
    model: &str,
    refused: &str,
) -> Result<(), Fail> {
    room.put_file("m.ma", model.as_bytes())?;
    let status = run(rt.alloc(), WORDS, room)?;
    is_refused(rt, status.number(), room, model, refused);
    Ok(())
}

/// Runs a model in a room of its own, which is refused.
pub(crate) fn refuses(
    rt: &(impl Abort + AllocGlobal),
    model: &str,
    refused: &str,
) -> Result<(), Fail> {
    let mut room = MemoryRoom::new(rt.alloc(), 4096);
    refuses_in(rt, &mut room, model, refused)
}

/// Runs each model of the table.
fn all_are_refused(rt: &(impl Abort + AllocGlobal)) -> Result<(), Fail> {
    for (model, refused) in &REFUSED {
        refuses(rt, model, refused)?;
    }
    Ok(())
}

/// The place of a line in the ring's model, counted from 0, what stands there, and how that is
/// refused.
const CHANGED: [(u32, &str, &str); 9] = [
    (1, "components line", "model refused: line 2: 1 BadLine\n"),
    (15, "[line]", "model refused: line 16: 2 DuplicateSection\n"),
    (11, "", "model refused: line 3: 6 MissingKey\n"),
    (
        11,
        "localtransition : q",
        "model refused: line 12: 28 NoSection\n",
    ),
    (
        13,
        "rule : { uniform(0,1) } 100 { t }",
        "model refused: line 14: 21 RandomRefused\n",
    ),
    (
        13,
        "rule : { (0,2) } 100 { t }",
        "model refused: line 14: 23 NotANeighbour\n",
    ),
    (
        13,
        "rule : { (0,0) + t } 100 { t }",
        "model refused: line 14: 20 BadSort\n",
    ),
    (
        13,
        "rule : { power(2,3) } 100 { t }",
        "model refused: line 14: 22 UnknownFunction\n",
    ),
    (13, "rule : 1 100", "model refused: line 14: 19 BadRule\n"),
];

/// Puts a text behind another, with a line in the place of one, counted from 0.
pub(crate) fn push_with_line(
    changed: &mut String,
    text: &str,
    place: u32,
    line: &str,
) -> Result<(), Fail> {
    let mut here: u32 = 0;
    for old in text.split('\n') {
        changed.push_str(if here == place { line } else { old })?;
        changed.push_str("\n")?;
        here = here.saturating_add(1);
    }
    Ok(())
}

/// Runs the ring with another line.
fn changed_is_refused(
    rt: &(impl Abort + AllocGlobal),
    place: u32,
    line: &str,
    refused: &str,
) -> Result<(), Fail> {
    let mut model = String::new(rt.alloc());
    push_with_line(&mut model, RING, place, line)?;
    refuses(rt, &model, refused)
}

#[test]
fn models_are_refused(rt: HostRuntime) -> Result<(), Fail> {
    all_are_refused(&rt)?;
    for (place, line, refused) in &CHANGED {
        changed_is_refused(&rt, *place, line, refused)?;
    }
    Ok(())
}
