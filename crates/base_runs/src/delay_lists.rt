// Each call of delay lists once, with values worked out by hand.
ghost use Rattle.std.specs.Prelude.{◌≡◌, length};

use crate::times::time;
use delay_lines::Delays;
use quantity::{Raw, Time, Value};
use std::process::Abort;
use std::test::Fail;

fn whole(n: u8) -> Value {
    match Raw::new(i64::from(n) * 100_000) {
        Some(raw) => Value::Num(raw),
        None => Value::Undefined,
    }
}

/// A pair takes the place of two, and is taken.
fn replaces(rt: &impl Abort, delays: &mut Delays) -> Result<(), Fail>
    requires { length delays.old.lists ≡ 2 }
{
    delays.reserve(1)?;
    delays.transport(0, time(5), whole(1))?;
    delays.transport(0, time(5), whole(2))?;
    delays.inertial(0, time(3), whole(4));
    let first = delays.first(0);
    delays.take_first(0);
    assert_eq!(rt;
        (first, delays.first(0), delays.first(1)),
        (Some((time(3), whole(4))), None, None)
    );
    Ok(())
}

#[test]
fn an_inertial_pair_takes_the_place_of_all(rt: HostRuntime) -> Result<(), Fail> {
    let mut delays = Delays::new(rt.alloc(), 2)?;
    replaces(&rt, &mut delays)
}

/// Puts three pairs into the list of a cell, and the list behind a pair.
fn append(delays: &mut Delays, pairs: &mut Vec<(Time, Value)>) -> Result<(), Fail>
    requires { length delays.old.lists ≡ 1 }
{
    delays.transport(0, time(7), whole(1))?;
    delays.transport(0, time(719_999_998), whole(3))?;
    delays.transport(0, time(0), Value::Undefined)?;
    pairs.push((time(9), whole(9)))?;
    delays.pairs(0, pairs)?;
    Ok(())
}

#[test]
fn pairs_are_appended(rt: HostRuntime) -> Result<(), Fail> {
    let mut delays = Delays::new(rt.alloc(), 1)?;
    let mut pairs = Vec::new(rt.alloc());
    append(&mut delays, &mut pairs)?;
    let wanted = [
        (time(9), whole(9)),
        (time(0), Value::Undefined),
        (time(7), whole(1)),
        (time(719_999_998), whole(3)),
    ];
    assert_eq!(rt; pairs.as_slice(), wanted.as_slice());
    Ok(())
}
