// Times and inputs as tests give them to boxes.
ghost use Rattle.std.specs.Prelude.{◌≤◌};
ghost use Rattle.quantity.specs.declared.bounds.TheConstants.{MAX_DELAY};

use atomic_face::PortNo;
use atomic_face::words::{number, time};
use quantity::{MAX_DELAY, Time, Value};
use std::alloc::Global;
use std::test::Fail;

/// So many milliseconds, up to the greatest delay.
pub(crate) fn at(ms: u32) -> Time
    ensures { result ≤ MAX_DELAY }
{
    time(ms.min(MAX_DELAY))
}

/// A whole number at an input.
fn input(port: u16, n: i8) -> (PortNo, Value) {
    (PortNo(port), number(i64::from(n) * 100_000))
}

/// Inputs with whole numbers.
pub(crate) fn inputs(alloc: Global, numbers: &[(u16, i8)]) -> Result<Vec<(PortNo, Value)>, Fail> {
    let mut bag = Vec::new(alloc);
    for (port, number) in numbers {
        bag.push(input(*port, *number))?;
    }
    Ok(bag)
}

/// The milliseconds of a time.
pub(crate) fn ms_of(time: Option<Time>) -> Option<u32> {
    match time {
        Some(time) => Some(time.ms()),
        None => None,
    }
}
