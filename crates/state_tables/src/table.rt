// Tables.
ghost use Rattle.std.specs.Prelude.{◌≡◌, ◌≤◌, length};
ghost use Rattle.state_tables.specs.Holds.{AreShort};

use crate::moves::Standing;
use crate::read::read_settings;
use crate::settings::{Shown, TableSettings};
use atomic_face::words::{due_if, give, put, time, time_word, value_of, value_word};
use atomic_face::{
    AdvanceRefusal, AtomicModel, Class, Params, PortNo, RestoreRefusal, SettleRefusal,
};
use quantity::{OutOfMemory, Time, Value};
use std::alloc::{AllocError, Global};

/// Holds each state for its time, gives the value of the hold and goes on; values at its ports lead
/// from state to state as its takes say.
#[derive(Drop)]
pub struct TableModel {
    settings: TableSettings,
    at: Standing,
    ghost few: { length settings.holds.items ≤ 64 },
    ghost short: { AreShort settings.holds.items },
}

impl AtomicModel for TableModel {
    ghost use Rattle.state_tables.specs.Table.{held_table};

    ghost held = { held_table };

    fn class(&self) -> Class {
        Class::Table
    }

    fn settle(&mut self, alloc: Global, params: &Params) -> Result<(), SettleRefusal> {
        let fresh = TableModel::with(read_settings(alloc, &params.entries)?);
        *self = fresh;
        Ok(())
    }

    fn next(&self) -> Option<Time> {
        self.at.due
    }

    fn output(&self, into: &mut Vec<(PortNo, Value)>) -> Result<(), OutOfMemory> {
        give(&self.settings.shown(&self.at), into)
    }

    fn advance(&mut self, now: Time, bag: &[(PortNo, Value)]) -> Result<(), AdvanceRefusal> {
        self.at = self.settings.moved(now, &self.at, bag);
        Ok(())
    }

    fn save(&self, into: &mut Vec<i64>) -> Result<(), OutOfMemory> {
        let state = i64::from(self.at.state);
        put(
            &[state, time_word(self.at.due), value_word(self.at.last)],
            into,
        )
    }

    fn restore(&mut self, _alloc: Global, words: &[i64]) -> Result<(), RestoreRefusal> {
        let [state, due, last] = words else {
            return Err(RestoreRefusal::BadState);
        };
        let Some(at) = self.standing_of(*state, *due, *last) else {
            return Err(RestoreRefusal::BadState);
        };
        self.at = at;
        Ok(())
    }
}

impl TableModel {
    ghost use Rattle.std.specs.Prelude.{[], ◌∷◌, pos, IfOk};
    ghost use Rattle.atomic_face.specs.StateTable.{is_below, is_table};
    ghost use Rattle.atomic_face.specs.BoxCalls.{box_at_start};
    ghost use Rattle.atomic_face.specs.Settings.{settings_of};
    ghost use Rattle.state_tables.specs.Settings.{words_of, AreSettings};
    ghost use Rattle.state_tables.specs.Table.{held_table, state_words};
    ghost use Rattle.atomic_face.specs.DueWords.{IsReadAs};

    /// A table as no parameters settle it: in its one state, which it holds for ever.
    pub fn new(alloc: Global) -> Result<TableModel, OutOfMemory>
        ensures { IfOk result (λ t. held_table t
            ≡ box_at_start Class.Table (settings_of Class.Table [])) }
    {
        // For the proof: the types that a hold is made of are named.
        let _shown: Option<Shown> = None;
        let _value: Option<Value> = None;
        let mut holds = Vec::new(alloc);
        holds.push(None).map_err(AllocError::from)?;
        Ok(TableModel::with(TableSettings {
            initial: 0,
            holds,
            takes: Vec::new(alloc),
        }))
    }

    // A table that starts with these settings.
    fn with(settings: TableSettings) -> TableModel
        requires { AreSettings settings }
        ensures { held_table result ≡ box_at_start Class.Table (words_of settings) }
    {
        let at = settings.entered(time(0), Value::Undefined, settings.initial);
        TableModel { settings, at }
    }

    // Where a table stands by these words; None where they say no such thing.
    fn standing_of(&self, state: i64, due: i64, last: i64) -> Option<Standing>
        ensures { IsReadAs (is_table (words_of self.now.settings)) state_words
            (state ∷ due ∷ last ∷ []) result }
    {
        let state = self.state_of(state)?;
        let has_hold = self.settings.hold_of(state).is_some();
        Some(Standing {
            state,
            due: due_if(has_hold, due)?,
            last: value_of(last)?,
        })
    }

    // The number of a state; None where it has no such state.
    fn state_of(&self, word: i64) -> Option<u8>
        ensures { IsReadAs (is_below (words_of self.now.settings)) (λ k. pos k) word result }
    {
        let state = u8::try_from(word).ok()?;
        if usize::from(state) < self.settings.holds.len() {
            Some(state)
        } else {
            None
        }
    }
}
