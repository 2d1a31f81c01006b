// Runs in two halves: what is made is that of one run.
use crate::saved_models;
use memory_runs::{put_files, run};
use room_edge::MemoryRoom;
use std::process::Abort;
use std::test::Fail;

/// A run in two halves, over the same files: the words of the first, which saves its state as
/// `s.txt`, those of the second, which goes on from there, and those of the one run; and what both
/// halves make of some files, one behind the other, which the one run makes too.
#[derive(Clone, Copy)]
struct Halves<'a> {
    files: &'a [(&'a str, &'a str)],
    first: &'a str,
    second: &'a str,
    whole: &'a str,
    made: &'a [(&'a str, &'a str)],
}

/// The frames of the ring up to 300.
const FRAMES: &str = "Time: 00:00:00:000
+------+
| 0 1 0|
+------+

Time: 00:00:00:100
+------+
| 1 1 1|
+------+

Time: 00:00:00:200
+------+
| 0 0 0|
+------+

";

/// The state of the ring at 200, where all is at rest.
const RESTING: &str = "state 1
at 00:00:00:200
cell line(0,0) 0.00000 0.00000 0
cell line(0,1) 0.00000 0.00000 0
cell line(0,2) 0.00000 0.00000 0
end
";

/// The log of the generators and the queue.
const SERVED_LOG: &str = "Y / 00:00:00:000 / g / out / 7.00000
Y / 00:00:00:000 / h / out / 8.00000
X / 00:00:00:000 / q / in / 8.00000
X / 00:00:00:000 / q / in / 7.00000
X / 00:00:00:000 / q / in / 7.00000
S / 00:00:00:000 / g / - / ...
S / 00:00:00:000 / h / - / ...
S / 00:00:00:000 / q / - / 00:00:00:000
Y / 00:00:00:000 / q / out / 8.00000
S / 00:00:00:000 / q / - / ...
";

/// The log of the queue that is prepared.
const WAITING_LOG: &str = "Y / 00:00:00:000 / g / out / 5.00000
X / 00:00:00:000 / q / in / 5.00000
S / 00:00:00:000 / g / - / 00:00:00:100
S / 00:00:00:000 / q / - / 00:00:00:150
Y / 00:00:00:100 / g / out / 6.00000
X / 00:00:00:100 / q / in / 6.00000
S / 00:00:00:100 / g / - / 00:00:00:200
S / 00:00:00:100 / q / - / 00:00:00:150
Y / 00:00:00:150 / q / out / 5.00000
S / 00:00:00:150 / q / - / ...
Y / 00:00:00:200 / g / out / 7.00000
X / 00:00:00:200 / q / in / 7.00000
S / 00:00:00:200 / g / - / ...
S / 00:00:00:200 / q / - / ...
";

/// Events of which one comes right after the first half.
const EVENTS: &str = "00:00:00:050 p 2
00:00:00:010 p 1
00:00:00:050 p 3
00:00:00:051 p 4
";

/// What the cell makes of them.
const PORT_LOG: &str = "Y / 00:00:00:000 / g(0,0) / out / 0.00000
S / 00:00:00:000 / g(0,0) / 0.00000 / ...
X / 00:00:00:010 / g(0,0) / v / 1.00000
S / 00:00:00:010 / g(0,0) / 1.00000 / 00:00:00:110
X / 00:00:00:050 / g(0,0) / v / 2.00000
X / 00:00:00:050 / g(0,0) / v / 3.00000
S / 00:00:00:050 / g(0,0) / 3.00000 / 00:00:00:110
X / 00:00:00:051 / g(0,0) / v / 4.00000
S / 00:00:00:051 / g(0,0) / 4.00000 / 00:00:00:110
Y / 00:00:00:110 / g(0,0) / out / 1.00000
S / 00:00:00:110 / g(0,0) / 4.00000 / 00:00:00:150
Y / 00:00:00:150 / g(0,0) / out / 3.00000
S / 00:00:00:150 / g(0,0) / 4.00000 / 00:00:00:151
Y / 00:00:00:151 / g(0,0) / out / 4.00000
S / 00:00:00:151 / g(0,0) / 4.00000 / ...
";

/// The ring with its log, the state of its second half, and its frames; boxes that are at rest and
/// boxes that wait; a cell with events.
const HALVES: [Halves<'static>; 5] = [
    Halves {
        files: &[("m.ma", saved_models::RING)],
        first: "cdpp -m m.ma -t 00:00:00:100 -l log.txt -S s.txt",
        second: "cdpp -m m.ma -t 00:00:00:200 -l log.txt -S t.txt -R s.txt",
        whole: "cdpp -m m.ma -t 00:00:00:200 -l log.txt -S t.txt",
        made: &[("log.txt", saved_models::WHOLE_LOG), ("t.txt", RESTING)],
    },
    Halves {
        files: &[("m.ma", saved_models::RING)],
        first: "cdpp -m m.ma -t 00:00:00:100 -d f.txt -g line -w 2 -S s.txt",
        second: "cdpp -m m.ma -t 00:00:00:300 -d f.txt -g line -w 2 -R s.txt",
        whole: "cdpp -m m.ma -t 00:00:00:300 -d f.txt -g line -w 2",
        made: &[("f.txt", FRAMES)],
    },
    Halves {
        files: &[("m.ma", saved_models::SERVED)],
        first: "cdpp -m m.ma -t 00:00:00:000 -l log.txt -o out.txt -L YXS -S s.txt",
        second: "cdpp -m m.ma -t 00:00:02:000 -l log.txt -o out.txt -L YXS -R s.txt",
        whole: "cdpp -m m.ma -t 00:00:02:000 -l log.txt -o out.txt -L YXS",
        made: &[
            ("log.txt", SERVED_LOG),
            ("out.txt", "00:00:00:000 o 8.00000\n"),
        ],
    },
    Halves {
        files: &[("m.ma", saved_models::WAITING)],
        first: "cdpp -m m.ma -t 00:00:00:100 -l log.txt -o out.txt -L YXS -S s.txt",
        second: "cdpp -m m.ma -t 00:00:00:300 -l log.txt -o out.txt -L YXS -R s.txt",
        whole: "cdpp -m m.ma -t 00:00:00:300 -l log.txt -o out.txt -L YXS",
        made: &[
            ("log.txt", WAITING_LOG),
            ("out.txt", "00:00:00:150 o 5.00000\n"),
        ],
    },
    Halves {
        files: &[("m.ma", saved_models::PORT_CELL), ("e.txt", EVENTS)],
        first: "cdpp -m m.ma -t 00:00:00:050 -e e.txt -l log.txt -L YXS -S s.txt",
        second: "cdpp -m m.ma -t 00:00:00:200 -e e.txt -l log.txt -L YXS -R s.txt",
        whole: "cdpp -m m.ma -t 00:00:00:200 -e e.txt -l log.txt -L YXS",
        made: &[("log.txt", PORT_LOG)],
    },
];

/// What was made of a file; nothing, where it wasn't.
fn made_of<'a>(room: &'a MemoryRoom, name: &str) -> &'a [u8] {
    match room.made(name) {
        Some(bytes) => bytes,
        None => b"",
    }
}

/// Runs these words over these files to the end.
fn run_done(
    rt: &(impl Abort + AllocGlobal),
    files: &[(&str, &str)],
    words: &str,
    room: &mut MemoryRoom,
) -> Result<(), Fail> {
    put_files(room, files)?;
    let status = run(rt.alloc(), words, room)?;
    is_done(rt, words, status.number(), room)
}

/// Compares a status and what was complained with those of a run that is done.
fn is_done(
    rt: &(impl Abort + AllocGlobal),
    words: &str,
    status: u8,
    room: &MemoryRoom,
) -> Result<(), Fail> {
    assert_eq!(rt; (status, room.complained()), (0, b"".as_slice()), "{words}");
    Ok(())
}

/// Runs both halves, the second with the state that the first made.
fn run_halves(
    rt: &(impl Abort + AllocGlobal),
    halves: &Halves<'_>,
    first: &mut MemoryRoom,
    second: &mut MemoryRoom,
) -> Result<(), Fail> {
    run_done(rt, halves.files, halves.first, first)?;
    second.put_file("s.txt", made_of(first, "s.txt"))?;
    run_done(rt, halves.files, halves.second, second)
}

/// Compares what both halves make of a file, and what the one run makes, with its text.
fn is_joined(
    rt: &(impl Abort + AllocGlobal),
    name: &str,
    text: &str,
    halves: (&MemoryRoom, &MemoryRoom),
    whole: &MemoryRoom,
) -> Result<(), Fail> {
    let mut joined = made_of(halves.0, name).to_vec(rt.alloc())?;
    joined.extend_from_slice(made_of(halves.1, name))?;
    assert_eq!(rt;
        (joined.as_slice(), made_of(whole, name)),
        (text.as_bytes(), text.as_bytes()),
        "{name}"
    );
    Ok(())
}

/// Compares all files of both halves and of the one run.
fn are_joined(
    rt: &(impl Abort + AllocGlobal),
    made: &[(&str, &str)],
    halves: (&MemoryRoom, &MemoryRoom),
    whole: &MemoryRoom,
) -> Result<(), Fail> {
    for (name, text) in made {
        is_joined(rt, name, text, halves, whole)?;
    }
    Ok(())
}

#[test]
fn halves_are_one_run(rt: HostRuntime) -> Result<(), Fail> {
    for halves in &HALVES {
        let mut first = MemoryRoom::new(rt.alloc(), 4096);
        let mut second = MemoryRoom::new(rt.alloc(), 4096);
        let mut whole = MemoryRoom::new(rt.alloc(), 4096);
        run_halves(&rt, halves, &mut first, &mut second)?;
        run_done(&rt, halves.files, halves.whole, &mut whole)?;
        are_joined(&rt, halves.made, (&first, &second), &whole)?;
    }
    Ok(())
}
