// Runs that save their state, that go on from one, and whose state is refused.
use crate::saved_models;
use memory_runs::{put_files, run};
use room_edge::MemoryRoom;
use std::process::Abort;
use std::test::Fail;

/// A run: the files in the room, the words, and what is answered: the status, what is shown and
/// complained, and what is made of some files.
#[derive(Clone, Copy)]
pub(crate) struct Row<'a> {
    pub(crate) files: &'a [(&'a str, &'a str)],
    pub(crate) words: &'a str,
    pub(crate) status: u8,
    pub(crate) shown: &'a str,
    pub(crate) complained: &'a str,
    pub(crate) made: &'a [(&'a str, Option<&'a str>)],
}

/// The ring that is saved, also in the place of an older state, and one whose run stops, of which
/// nothing is saved.
const SAVED: [Row<'static>; 3] = [
    Row {
        files: &[("ring.ma", saved_models::RING)],
        words: "cdpp -m ring.ma -t 00:00:00:100 -l log.txt -S s.txt",
        status: 0,
        shown: "end 00:00:00:100 cycles 2\n",
        complained: "",
        made: &[
            ("log.txt", Some(saved_models::RING_LOG)),
            ("s.txt", Some(saved_models::RING_STATE)),
        ],
    },
    Row {
        files: &[("ring.ma", saved_models::RING), ("s.txt", "state 1\n")],
        words: "cdpp -m ring.ma -t 0:0:0:100 -S=s.txt",
        status: 0,
        shown: "end 00:00:00:100 cycles 2\n",
        complained: "",
        made: &[("s.txt", Some(saved_models::RING_STATE))],
    },
    Row {
        files: &[("k.ma", saved_models::COMPARED)],
        words: "cdpp -m k.ma -t 00:00:00:100 -l log.txt -S s.txt",
        status: 8,
        shown: "",
        complained: "no true rule: g(0,0) at 00:00:00:000\n",
        made: &[("log.txt", Some("")), ("s.txt", Some(""))],
    },
];

/// The ring that goes on from its state, to a later end and to the state's own; and one run.
const RESUMED: [Row<'static>; 3] = [
    Row {
        files: &[
            ("ring.ma", saved_models::RING),
            ("s.txt", saved_models::RING_STATE),
        ],
        words: "cdpp -m ring.ma -t 00:00:00:200 -R s.txt -l log2.txt",
        status: 0,
        shown: "end 00:00:00:200 cycles 1\n",
        complained: "",
        made: &[("log2.txt", Some(saved_models::LATER_LOG)), ("s.txt", None)],
    },
    Row {
        files: &[
            ("ring.ma", saved_models::RING),
            ("s.txt", saved_models::RING_STATE),
        ],
        words: "cdpp -m ring.ma -t 00:00:00:100 -R s.txt -l log2.txt -S again.txt",
        status: 0,
        shown: "end 00:00:00:100 cycles 0\n",
        complained: "",
        made: &[
            ("log2.txt", Some("")),
            ("again.txt", Some(saved_models::RING_STATE)),
        ],
    },
    Row {
        files: &[("ring.ma", saved_models::RING)],
        words: "cdpp -m ring.ma -t 00:00:00:200 -l log.txt",
        status: 0,
        shown: "end 00:00:00:200 cycles 3\n",
        complained: "",
        made: &[("log.txt", Some(saved_models::WHOLE_LOG))],
    },
];

/// The state without its last line.
const NO_END: &str = "state 1
at 00:00:00:100
cell line(0,0) 1.00000 0.00000 1 200 0.00000
cell line(0,1) 1.00000 0.00000 1 200 0.00000
cell line(0,2) 1.00000 0.00000 1 200 0.00000
";

/// The state with a time that is not after its own.
const NOT_LATER: &str = "state 1
at 00:00:00:100
cell line(0,0) 1.00000 0.00000 1 200 0.00000
cell line(0,1) 1.00000 0.00000 1 100 0.00000
cell line(0,2) 1.00000 0.00000 1 200 0.00000
end
";

/// States that are refused, and one that is missing; nothing is made.
const REFUSED_STATES: [Row<'static>; 4] = [
    Row {
        files: &[
            ("ring.ma", saved_models::RING),
            ("s.txt", saved_models::RING_STATE),
        ],
        words: "cdpp -m ring.ma -t 00:00:00:050 -R s.txt -l log2.txt",
        status: 14,
        shown: "",
        complained: "state refused: line 2: 2 EndBefore\n",
        made: &[("log2.txt", None)],
    },
    Row {
        files: &[("ring.ma", saved_models::RING), ("s.txt", NO_END)],
        words: "cdpp -m ring.ma -t 00:00:00:200 -R s.txt -l log2.txt",
        status: 14,
        shown: "",
        complained: "state refused: line 6: 1 BadStateLine\n",
        made: &[("log2.txt", None)],
    },
    Row {
        files: &[("ring.ma", saved_models::RING), ("s.txt", NOT_LATER)],
        words: "cdpp -m ring.ma -t 00:00:00:200 -R s.txt -l log2.txt -S again.txt",
        status: 14,
        shown: "",
        complained: "state refused: line 4: 1 BadStateLine\n",
        made: &[("log2.txt", None), ("again.txt", None)],
    },
    Row {
        files: &[("ring.ma", saved_models::RING)],
        words: "cdpp -m ring.ma -t 00:00:00:200 -R s.txt -l log2.txt",
        status: 3,
        shown: "",
        complained: "missing: s.txt\n",
        made: &[("log2.txt", None)],
    },
];

/// Compares what was answered with what a row wants.
fn stands(rt: &impl Abort, status: u8, room: &MemoryRoom, row: &Row<'_>) {
    let words = row.words;
    assert_eq!(rt;
        (status, room.shown(), room.complained()),
        (row.status, row.shown.as_bytes(), row.complained.as_bytes()),
        "{words}"
    );
}

/// The bytes of a text, if there is one.
fn bytes_of(text: Option<&str>) -> Option<&[u8]> {
    match text {
        None => None,
        Some(text) => Some(text.as_bytes()),
    }
}

/// Compares the files of a row.
fn are_made(rt: &impl Abort, room: &MemoryRoom, row: &Row<'_>) {
    let words = row.words;
    for (name, text) in row.made {
        assert_eq!(rt; room.made(name), bytes_of(*text), "{words}");
    }
}

/// Runs a row in the room, and compares what is left.
fn answers_in(
    rt: &(impl Abort + AllocGlobal),
    room: &mut MemoryRoom,
    row: &Row<'_>,
) -> Result<(), Fail> {
    put_files(room, row.files)?;
    let status = run(rt.alloc(), row.words, room)?;
    stands(rt, status.number(), room, row);
    are_made(rt, room, row);
    Ok(())
}

/// Runs a row in a room of its own.
pub(crate) fn answers(rt: &(impl Abort + AllocGlobal), row: &Row<'_>) -> Result<(), Fail> {
    let mut room = MemoryRoom::new(rt.alloc(), 4096);
    answers_in(rt, &mut room, row)
}

/// Runs each row of a table.
fn all_answer(rt: &(impl Abort + AllocGlobal), rows: &[Row<'_>]) -> Result<(), Fail> {
    for row in rows {
        answers(rt, row)?;
    }
    Ok(())
}

/// The tables of rows.
const TABLES: [&[Row<'static>]; 3] = [&SAVED, &RESUMED, &REFUSED_STATES];

#[test]
fn rows_are_answered(rt: HostRuntime) -> Result<(), Fail> {
    for &rows in &TABLES {
        all_answer(&rt, rows)?;
    }
    Ok(())
}
