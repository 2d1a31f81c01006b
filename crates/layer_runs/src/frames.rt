// Frames: each call that can want memory, once with enough of it.
use cell_grid::{Border, Grid};
use frame_draw::Frames;
use quantity::{Raw, Time, Value};
use std::process::Abort;
use std::test::Fail;

/// So many hundred-thousandths.
fn number(raw: i64) -> Value {
    match Raw::new(raw) {
        Some(raw) => Value::Num(raw),
        None => Value::Undefined,
    }
}

/// Compares the frame of the instant that ends with a text.
fn ends(rt: &(impl Abort + AllocGlobal), frames: &mut Frames, frame: &[u8]) -> Result<(), Fail> {
    let mut text = Vec::new(rt.alloc());
    frames.finish(&mut text)?;
    assert_eq!(rt; text.as_slice(), frame);
    Ok(())
}

#[test]
fn one_instant_is_drawn(rt: HostRuntime) -> Result<(), Fail> {
    let grid = Grid::new(1, 3, None, Border::NoWrapped).ok_or("no space")?;
    assert!(rt; 0 < grid.planes());
    assert!(rt; 2 < grid.cells());
    let start = Time::new(0).ok_or("a time")?;
    let mut frames = Frames::new(rt.alloc(), &grid, 0, 2, 0)?;
    frames.take(0, start, number(0));
    frames.take(1, start, number(100_000));
    frames.take(2, start, number(0));
    ends(
        &rt,
        &mut frames,
        b"Time: 00:00:00:000\n+------+\n| 0 1 0|\n+------+\n\n",
    )
}

#[test]
fn wide_values_stay_whole(rt: HostRuntime) -> Result<(), Fail> {
    let grid = Grid::new(1, 3, None, Border::NoWrapped).ok_or("no space")?;
    assert!(rt; 0 < grid.planes());
    assert!(rt; 2 < grid.cells());
    let start = Time::new(0).ok_or("a time")?;
    let mut frames = Frames::new(rt.alloc(), &grid, 0, 1, 0)?;
    frames.preset(0, number(1_200_000));
    frames.take(1, start, number(-40_000));
    ends(
        &rt,
        &mut frames,
        b"Time: 00:00:00:000\n+---+\n|120?|\n+---+\n\n",
    )
}
