// Runs without a seed, and in the orders of two: their files, status and complaint are the same.
use crate::served_models;
use memory_runs::{put_files, run};
use room_edge::MemoryRoom;
use std::process::Abort;
use std::test::Fail;

/// A run: the files in the room, the words without a seed, the status, what is complained, the files
/// that are made, and what is shown in each of the orders.
#[derive(Clone, Copy)]
struct Row<'a> {
    files: &'a [(&'a str, &'a str)],
    words: &'a str,
    status: u8,
    complained: &'a str,
    made: &'a [(&'a str, &'a str)],
    shown: [&'a str; 3],
}

/// No order, and those of two seeds, as what stands behind the other words.
const ORDERS: [&str; 3] = ["", " -T 1", " -T 2147483647"];

/// The ring, a blinker from a file and one that is made, boxes, and a cell that stops.
const ROWS: [Row<'static>; 5] = [
    Row {
        files: &[("m.ma", served_models::RING)],
        words: "cdpp -m m.ma -t 00:00:00:100 -l log.txt",
        status: 0,
        complained: "",
        made: &[("log.txt", served_models::RING_LOG)],
        shown: [
            "end 00:00:00:100 cycles 2\n",
            "end 00:00:00:100 cycles 2 mark 28832\n",
            "end 00:00:00:100 cycles 2 mark 13412\n",
        ],
    },
    Row {
        files: &[("m.ma", served_models::LIFE)],
        words: "cdpp -m m.ma -t 00:00:00:300 -l log.txt -d f.txt -g Life -w 2",
        status: 0,
        complained: "",
        made: &[
            ("log.txt", served_models::LIFE_LOG),
            ("f.txt", served_models::LIFE_FRAMES),
        ],
        shown: [
            "end 00:00:00:300 cycles 4\n",
            "end 00:00:00:300 cycles 4 mark 988104\n",
            "end 00:00:00:300 cycles 4 mark 69324\n",
        ],
    },
    Row {
        files: &[],
        words: "cdpp -G 5 -t 00:00:00:300 -l log.txt",
        status: 0,
        complained: "",
        made: &[("log.txt", served_models::LIFE_LOG)],
        shown: [
            "made 5 cells 25 cycles 4 y 37 s 88 ones 3\n",
            "made 5 cells 25 cycles 4 y 37 s 88 ones 3 mark 988104\n",
            "made 5 cells 25 cycles 4 y 37 s 88 ones 3 mark 69324\n",
        ],
    },
    Row {
        files: &[("m.ma", served_models::BOXES)],
        words: "cdpp -m m.ma -t 00:00:00:000 -l log.txt -o out.txt -L YXS",
        status: 0,
        complained: "",
        made: &[
            ("log.txt", served_models::BOXES_LOG),
            ("out.txt", "00:00:00:000 o 8.00000\n"),
        ],
        shown: [
            "end 00:00:00:000 cycles 2\n",
            "end 00:00:00:000 cycles 2 mark 379744\n",
            "end 00:00:00:000 cycles 2 mark 133404\n",
        ],
    },
    Row {
        files: &[
            ("m.ma", served_models::LATE),
            ("e.txt", served_models::LATE_EVENTS),
        ],
        words: "cdpp -m m.ma -t 00:00:00:200 -e e.txt -l log.txt",
        status: 10,
        complained: "bad delay: g(0,0) at 00:00:00:120: -10.00000\n",
        made: &[("log.txt", served_models::LATE_LOG)],
        shown: ["", "", ""],
    },
];

/// Compares the files that were made.
fn are_made(rt: &impl Abort, room: &MemoryRoom, row: &Row<'_>) {
    let words = row.words;
    for (name, text) in row.made {
        assert_eq!(rt; room.made(name), Some(text.as_bytes()), "{words}");
    }
}

/// Runs these words, and those of the order behind them, in the room, and compares what is left.
fn ends_in(
    rt: &(impl Abort + AllocGlobal),
    room: &mut MemoryRoom,
    row: &Row<'_>,
    order: &str,
    shown: &str,
) -> Result<(), Fail> {
    let mut line = String::from_str(rt.alloc(), row.words)?;
    line.push_str(order)?;
    put_files(room, row.files)?;
    let status = run(rt.alloc(), &line, room)?;
    assert_eq!(rt;
        (status.number(), room.shown(), room.complained()),
        (row.status, shown.as_bytes(), row.complained.as_bytes()),
        "{line}"
    );
    are_made(rt, room, row);
    Ok(())
}

/// Does so in each order, each time in a room of its own.
fn ends_in_each_order(rt: &(impl Abort + AllocGlobal), row: &Row<'_>) -> Result<(), Fail> {
    for (order, shown) in ORDERS.iter().zip(row.shown.iter()) {
        let mut room = MemoryRoom::new(rt.alloc(), 4096);
        ends_in(rt, &mut room, row, order, shown)?;
    }
    Ok(())
}

#[test]
fn any_order_makes_the_same(rt: HostRuntime) -> Result<(), Fail> {
    for row in &ROWS {
        ends_in_each_order(&rt, row)?;
    }
    Ok(())
}
