// How a box moves.
ghost use Rattle.std.specs.Prelude.{◌≡◌, ◌<◌, ◌≤◌, length};
ghost use Rattle.quantity.specs.declared.bounds.TheConstants.{MAX_DELAY};
ghost use Rattle.run_leaves.specs.Moving.{MovesBox};

use atomic_face::{AdvanceRefusal, AtomicModel, BoxNo, PortNo, Stock};
use cycle_steps::told::Told;
use quantity::{Time, Value};
use rule_tree::RuleStop;
use run_model::LeafStop;

/// A box moves: its next time.
pub(crate) fn move_box<M: AtomicModel>(
    stock: &mut Stock<M>,
    at: BoxNo,
    t: Time,
    bag: &[(PortNo, Value)],
) -> Result<Told, LeafStop>
    requires at { at.0 < length stock.old }
    requires time { t ≤ MAX_DELAY }
    ensures { MovesBox t bag.now at.0 stock.old stock.new result }
{
    match stock.advance(at, t, bag) {
        Ok(()) => Ok(Told {
            value: None,
            next: stock.next(at),
        }),
        Err(AdvanceRefusal::Overflow) => Err(LeafStop::Rule(RuleStop::Overflow)),
        Err(AdvanceRefusal::Memory) => Err(LeafStop::Memory),
    }
}
