// The moves of tables.
ghost use Rattle.std.specs.Prelude.{◌≡◌, ◌≤◌};
ghost use Rattle.std.specs.List.{find};
ghost use Rattle.quantity.specs.declared.bounds.TheConstants.{MAX_DELAY};
ghost use Rattle.atomic_face.specs.StateTable.{state_on_entry, held_value, hold_of, table_input, table_internal, table_moved};
ghost use Rattle.atomic_face.specs.Words.{word_of};
ghost use Rattle.state_tables.specs.Holds.{hold_at, AreShort};

use crate::settings::{Hold, Shown, TableSettings, Take, Wanted};
use atomic_face::PortNo;
use atomic_face::words::{is_at, number, value_word};
use quantity::{Time, Value};

/// Where a table stands: the number of its state, when the hold of that is over, and the value that
/// came in last.
#[derive(Clone, Copy)]
pub(crate) struct Standing {
    pub(crate) state: u8,
    pub(crate) due: Option<Time>,
    pub(crate) last: Value,
}

impl TableSettings {
    ghost use Rattle.state_tables.specs.Moves.{plain_settings, plain_state, leads};

    /// The hold of a state, where it has one.
    pub(crate) fn hold_of(&self, state: u8) -> Option<Hold>
        ensures { result ≡ hold_at self.now.holds.items state }
    {
        match self.holds.get(usize::from(state)) {
            Some(hold) => *hold,
            None => None,
        }
    }

    /// The table in a state that it enters now.
    pub(crate) fn entered(&self, now: Time, last: Value, state: u8) -> Standing
        requires now { now ≤ MAX_DELAY }
        requires short { AreShort self.now.holds.items }
        ensures { plain_state result
            ≡ state_on_entry (plain_settings self.now) now (word_of last) state }
    {
        let due = match self.hold_of(state) {
            Some(hold) => Some(now.after(hold.time)),
            None => None,
        };
        Standing { state, due, last }
    }

    /// What the state gives when its hold is over; 0 where it has no hold.
    pub(crate) fn shown(&self, at: &Standing) -> Value
        ensures { result ≡ held_value (plain_state at.now)
            (hold_of (plain_settings self.now) at.now.state) }
    {
        let Some(hold) = self.hold_of(at.state) else {
            return number(0);
        };
        match hold.shown {
            Shown::Value(value) => value,
            Shown::Last => {
                // For the proof: it is bounded, so that its number is not that of `?`.
                let _ = at.last.known();
                at.last
            }
        }
    }

    /// The table after an instant: a hold that is over first, and then the inputs in their order.
    pub(crate) fn moved(&self, now: Time, at: &Standing, bag: &[(PortNo, Value)]) -> Standing
        requires now { now ≤ MAX_DELAY }
        requires short { AreShort self.now.holds.items }
        ensures { plain_state result ≡ table_moved (plain_settings self.now) now
            (plain_state at.now) bag.now }
    {
        let mut moved = self.after_hold(now, at);
        for input in bag {
            moved = self.after_input(now, &moved, input);
        }
        moved
    }

    fn after_hold(&self, now: Time, at: &Standing) -> Standing
        requires now { now ≤ MAX_DELAY }
        requires short { AreShort self.now.holds.items }
        ensures { plain_state result ≡ table_internal (plain_settings self.now) now
            (plain_state at.now) }
    {
        if is_at(now, at.due) {
            self.entered(now, at.last, self.next_state(at.state))
        } else {
            *at
        }
    }

    // The state that follows; where a state has no hold, so that none follows, the first.
    fn next_state(&self, state: u8) -> u8
        ensures { result ≡ (hold_of (plain_settings self.now) state).next }
    {
        match self.hold_of(state) {
            Some(hold) => hold.next,
            None => 0,
        }
    }

    fn after_input(&self, now: Time, at: &Standing, input: &(PortNo, Value)) -> Standing
        requires now { now ≤ MAX_DELAY }
        requires short { AreShort self.now.holds.items }
        ensures { plain_state result ≡ table_input (plain_settings self.now) now
            (plain_state at.now) input.now }
    {
        match self.take_of(at.state, input) {
            Some(take) => self.entered(now, input.1, take.next),
            None => Standing {
                state: at.state,
                due: at.due,
                last: input.1,
            },
        }
    }

    // The first entry that leads on from the state.
    fn take_of(&self, state: u8, input: &(PortNo, Value)) -> Option<Take>
        ensures { result ≡ find (leads state input.now) self.now.takes.items }
    {
        self.takes
            .iter()
            .copied()
            .find(|take| take.leads(state, input))
    }
}

impl Take {
    ghost use Rattle.state_tables.specs.Moves.{leads};

    // Whether an input leads on from a state by this entry.
    fn leads(&self, state: u8, input: &(PortNo, Value)) -> bool
        ensures { result ≡ leads state input.now self.now }
    {
        self.state == state && self.port.0 == input.0.0 && self.wanted.is_met(&input.1)
    }
}

impl Wanted {
    ghost use Rattle.atomic_face.specs.Words.{word_of};
    ghost use Rattle.state_tables.specs.Moves.{is_met};
    ghost use Rattle.state_tables.specs.Settings.{wanted_word};

    // Whether the value that comes is wanted.
    fn is_met(&self, value: &Value) -> bool
        ensures { result ≡ is_met (wanted_word self.now) (word_of value.now) }
    {
        match self {
            Wanted::Value(wanted) => value_word(*wanted) == value_word(*value),
            Wanted::Any => true,
        }
    }
}
