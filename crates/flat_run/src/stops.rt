// A stop that is kept and answered.
ghost use Rattle.std.specs.Prelude.{◌≡◌};

use run_model::Stop;

/// The same stop: a run keeps one and answers the other.
pub fn same_stop(stop: &Stop) -> Stop
    ensures { result ≡ stop.now }
{
    *stop
}
