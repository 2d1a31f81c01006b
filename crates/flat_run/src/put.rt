// The next time of a leaf whose state is put.
ghost use Rattle.std.specs.Prelude.{◌≡◌, map};
ghost use Rattle.run_model.specs.CellStep.{first_time, next_of_ports};
ghost use Rattle.cell_table.specs.Saved.{port_of_saved};

use cell_engine::PortState;
use quantity::{Time, Value, earlier};

/// The least time that waits at these ports.
pub(crate) fn least_time(ports: &[PortState]) -> Option<Time>
    ensures { result ≡ next_of_ports (map port_of_saved ports.now) }
{
    let mut next = None;
    for port in ports {
        next = earlier(next, first_of(&port.pairs));
    }
    next
}

/// The time of the first pair, where there is one.
fn first_of(pairs: &[(Time, Value)]) -> Option<Time>
    ensures { result ≡ first_time pairs.now }
{
    let pair = pairs.first()?;
    Some(pair.0)
}
