// Whole runs of the two programs, over a room in memory, for `cdpp` with two boxes of each class:
// what is answered to words and files.
use crate::drawings::DRAWINGS;
use crate::forms::{FURTHER_KEYS, LIGHTS};
use crate::tables;
use memory_runs::{put_files, run};
use room_edge::MemoryRoom;
use std::process::Abort;
use std::test::Fail;

/// A run: the files in the room, the words, and what is answered: the status, what is shown and
/// complained, and the files that are made.
#[derive(Clone, Copy)]
pub(crate) struct Row<'a> {
    pub(crate) files: &'a [(&'a str, &'a str)],
    pub(crate) words: &'a str,
    pub(crate) status: u8,
    pub(crate) shown: &'a str,
    pub(crate) complained: &'a str,
    pub(crate) made: &'a [(&'a str, &'a str)],
}

/// The text of the first file of a row, by which rows of the same words are told apart.
fn model_of<'a>(row: &Row<'a>) -> &'a str {
    match row.files {
        [(_, text), ..] => text,
        [] => "",
    }
}

/// Compares what was answered with what a row wants.
fn stands(rt: &impl Abort, status: u8, room: &MemoryRoom, row: &Row<'_>) {
    let (words, model) = (row.words, model_of(row));
    assert_eq!(rt;
        (status, room.shown(), room.complained()),
        (row.status, row.shown.as_bytes(), row.complained.as_bytes()),
        "{words}\n{model}"
    );
}

/// Compares a file that was made, or that was not.
fn is_made(rt: &impl Abort, room: &MemoryRoom, name: &str, text: Option<&[u8]>, row: &Row<'_>) {
    let (words, model) = (row.words, model_of(row));
    assert_eq!(rt; room.made(name), text, "{words}\n{model}");
}

/// Compares the files of a row, or the log where there are none.
fn are_made(rt: &impl Abort, room: &MemoryRoom, row: &Row<'_>) {
    if row.made.is_empty() {
        is_made(rt, room, "log.txt", None, row);
    }
    for (name, text) in row.made {
        is_made(rt, room, name, Some(text.as_bytes()), row);
    }
}

/// Runs a row in the room, and compares what is left.
fn answers_in(
    rt: &(impl Abort + AllocGlobal),
    room: &mut MemoryRoom,
    row: &Row<'_>,
) -> Result<(), Fail> {
    put_files(room, row.files)?;
    let status = run(rt.alloc(), row.words, room)?;
    stands(rt, status.number(), room, row);
    are_made(rt, room, row);
    Ok(())
}

/// Runs a row in a room of its own.
pub(crate) fn answers(rt: &(impl Abort + AllocGlobal), row: &Row<'_>) -> Result<(), Fail> {
    let mut room = MemoryRoom::new(rt.alloc(), 4096);
    answers_in(rt, &mut room, row)
}

/// Runs each row of a table.
fn all_answer(rt: &(impl Abort + AllocGlobal), rows: &[Row<'_>]) -> Result<(), Fail> {
    for row in rows {
        answers(rt, row)?;
    }
    Ok(())
}

/// The tables of rows.
const TABLES: [&[Row<'static>]; 12] = [
    &tables::CELLS_FOLLOW_THEIR_NEIGHBOURS,
    &tables::CELLS_SEE_WHAT_LIES_AROUND_THEM,
    &tables::VALUES_COME_AT_PORTS,
    &tables::RUNS_STOP_EARLY,
    &tables::BOXES_SERVE,
    &tables::PLANES_ARE_DRAWN,
    &tables::WORDS_ARE_REFUSED,
    &tables::FILES_ARE_REFUSED,
    &tables::MODELS_ARE_MADE,
    &FURTHER_KEYS,
    &LIGHTS,
    &DRAWINGS,
];

#[test]
fn rows_are_answered(rt: HostRuntime) -> Result<(), Fail> {
    for &rows in &TABLES {
        all_answer(&rt, rows)?;
    }
    Ok(())
}
