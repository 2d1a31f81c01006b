// Seeds that are taken, with the mark of their order, and words that are refused.
use crate::served_models;
use memory_runs::models::USAGE;
use memory_runs::{put_files, run};
use room_edge::MemoryRoom;
use std::process::Abort;
use std::test::Fail;

/// Runs of the ring up to 0, and what is shown in the order of their seed.
const TAKEN: [(&str, &str); 5] = [
    (
        "cdpp -m ring.ma -t 00:00:00:000 -T 0",
        "end 00:00:00:000 cycles 1 mark 545006\n",
    ),
    (
        "cdpp -m ring.ma -t 00:00:00:000 -T 1",
        "end 00:00:00:000 cycles 1 mark 582706\n",
    ),
    (
        "cdpp -T=7 -m ring.ma -t 00:00:00:000",
        "end 00:00:00:000 cycles 1 mark 503876\n",
    ),
    (
        "cdpp -m ring.ma -T0000000007 -t 00:00:00:000",
        "end 00:00:00:000 cycles 1 mark 503876\n",
    ),
    (
        "cdpp -m ring.ma -t 00:00:00:000 -T 2147483647",
        "end 00:00:00:000 cycles 1 mark 308786\n",
    ),
];

/// A seed past the last, with too many digits, with none, without a value and twice; and a seed beside
/// a state.
const REFUSED: [&str; 8] = [
    "cdpp -m ring.ma -t 00:00:00:000 -T 2147483648",
    "cdpp -m ring.ma -t 00:00:00:000 -T 00000000007",
    "cdpp -m ring.ma -t 00:00:00:000 -T=",
    "cdpp -m ring.ma -t 00:00:00:000 -T one",
    "cdpp -m ring.ma -t 00:00:00:000 -T",
    "cdpp -m ring.ma -t 00:00:00:000 -T 1 -T 1",
    "cdpp -m ring.ma -t 00:00:00:000 -T 1 -S s.txt",
    "cdpp -m ring.ma -t 00:00:00:000 -T 1 -R s.txt",
];

/// Runs a command line in the room, and compares what is answered.
fn answers_in(
    rt: &(impl Abort + AllocGlobal),
    room: &mut MemoryRoom,
    line: &str,
    status: u8,
    shown: &str,
    complained: &str,
) -> Result<(), Fail> {
    put_files(room, &[("ring.ma", served_models::RING)])?;
    let got = run(rt.alloc(), line, room)?;
    assert_eq!(rt;
        (got.number(), room.shown(), room.complained()),
        (status, shown.as_bytes(), complained.as_bytes()),
        "{line}"
    );
    Ok(())
}

/// Runs a line that is taken.
fn takes(rt: &(impl Abort + AllocGlobal), line: &str, shown: &str) -> Result<(), Fail> {
    let mut room = MemoryRoom::new(rt.alloc(), 4096);
    answers_in(rt, &mut room, line, 0, shown, "")
}

/// Runs a line that is refused.
fn refuses(rt: &(impl Abort + AllocGlobal), line: &str) -> Result<(), Fail> {
    let mut room = MemoryRoom::new(rt.alloc(), 4096);
    answers_in(rt, &mut room, line, 2, "", USAGE)
}

#[test]
fn seeds_are_taken(rt: HostRuntime) -> Result<(), Fail> {
    for (line, shown) in &TAKEN {
        takes(&rt, line, shown)?;
    }
    Ok(())
}

#[test]
fn words_are_refused(rt: HostRuntime) -> Result<(), Fail> {
    for line in &REFUSED {
        refuses(&rt, line)?;
    }
    Ok(())
}
