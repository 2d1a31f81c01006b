// Times as tests give them.
ghost use Rattle.std.specs.Prelude.{◌≤◌};
ghost use Rattle.quantity.specs.declared.bounds.TheConstants.{MAX_TIME};

use quantity::Time;

/// So many milliseconds.
pub(crate) fn time(ms: u32) -> Time
    requires { ms ≤ MAX_TIME }
{
    match Time::new(ms) {
        Some(time) => time,
        None => unreachable!(),
    }
}
