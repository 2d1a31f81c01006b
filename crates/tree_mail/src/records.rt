// The records of a cycle that was served, from what is kept of the leaves and of top.
ghost use Rattle.std.specs.Prelude.{◌≡◌, ◌≤◌, ◌++◌, ◌∷◌, [], map, length, OnOk};
ghost use Rattle.std.specs.Option.{option_map};
ghost use Rattle.run_model.specs.Run.{port_records};
ghost use Rattle.text_forms.specs.Held.{Holds, AreEmpty, x_at, s_at, out_at};
ghost use Rattle.served_tree.specs.KeptCycle.{out_record};
ghost use Rattle.tree_mail.specs.Notes.{note_of, notes_of, answer_in};
ghost use Rattle.tree_mail.specs.Recorded.{given_records, taken_records, move_record, move_records, next_answered, of_leaf_at, cycle_by, Adds, HoldsOrStops, stop_in, y_given, n_given};

use crate::kept::{Became, Kept, gave_in};
use crate::mail::Mail;
use crate::message::Answer;
use atomic_face::PortNo;
use quantity::{MaybeTime, MaybeValueBytes, OutOfMemory, Time, Value, ValueBytes};
use run_model::Stop;
use std::alloc::AllocError;
use text_forms::{OutRecord, Records, SRecord, XRecord, YRecord};
use tree_tables::Entry;

/// The records of the cycle at an instant, in place of none; or why it stops.
pub fn end_of(t: Time, entries: &[Entry], mail: &Mail, records: &mut Records) -> Result<(), Stop>
    requires kept { length entries.now ≤ length mail.now.kept.items }
    requires records { AreEmpty records.old }
    ensures { let notes = notes_of mail.now.kept.items in
        HoldsOrStops t entries.now notes (stop_in notes) result records.new }
{
    if let Some((leaf, why)) = mail.answer(0).stop {
        return Err(Stop::of_rules(leaf, t, why));
    }
    match record_all(t, entries, mail, records) {
        Ok(()) => Ok(()),
        Err(OutOfMemory) => Err(Stop::Memory),
    }
}

/// The records of the cycle at an instant, in place of none.
fn record_all(
    t: Time,
    entries: &[Entry],
    mail: &Mail,
    records: &mut Records,
) -> Result<(), OutOfMemory>
    requires kept { length entries.now ≤ length mail.now.kept.items }
    requires records { AreEmpty records.old }
    ensures { OnOk result
        (Holds records.new (cycle_by t entries.now (notes_of mail.now.kept.items))) }
{
    for (i, entry) in entries.iter().enumerate() {
        record_entry(t, entry.leaf, &mail.kept[i], records)?;
    }
    record_out(t, mail.gave(0), &mut records.out)
}

/// Those of a processor, which is a leaf or isn't.
fn record_entry(
    t: Time,
    leaf: Option<u32>,
    kept: &Kept,
    records: &mut Records,
) -> Result<(), OutOfMemory>
    ensures { OnOk result (Adds t (of_leaf_at given_records leaf (note_of kept.now))
        (of_leaf_at taken_records leaf (note_of kept.now))
        (of_leaf_at move_records leaf (note_of kept.now)) records.old records.new) }
{
    match leaf {
        None => Ok(()),
        Some(leaf) => record_leaf(t, leaf, kept, records),
    }
}

/// Those of one leaf.
fn record_leaf(t: Time, leaf: u32, kept: &Kept, records: &mut Records) -> Result<(), OutOfMemory>
    ensures { OnOk result (Adds t (given_records leaf (note_of kept.now))
        (taken_records leaf (note_of kept.now)) (move_records leaf (note_of kept.now))
        records.old records.new) }
{
    record_ports(t, leaf, gave_in(kept), &mut records.y, &mut records.n)?;
    record_taken(t, leaf, &kept.took, &mut records.x)?;
    record_move(t, leaf, kept.became, next_of(kept.answered), &mut records.s)
}

/// What a leaf gave: at its port `out`, and at further ports.
fn record_ports(
    t: Time,
    leaf: u32,
    bag: &[(PortNo, Value)],
    y: &mut Vec<YRecord>,
    n: &mut Vec<YRecord>,
) -> Result<(), OutOfMemory>
    ensures y { OnOk result (y.new.items ≡ y.old.items ++ y_given t leaf bag.now) }
    ensures n { OnOk result (n.new.items ≡ n.old.items ++ n_given t leaf bag.now) }
{
    for given in bag {
        record_port(t, leaf, given, y, n)?;
    }
    Ok(())
}

/// One value that a leaf gave.
fn record_port(
    t: Time,
    leaf: u32,
    given: &(PortNo, Value),
    y: &mut Vec<YRecord>,
    n: &mut Vec<YRecord>,
) -> Result<(), OutOfMemory>
    ensures y { OnOk result (y.new.items ≡ y.old.items ++ y_given t leaf (given.now ∷ [])) }
    ensures n { OnOk result (n.new.items ≡ n.old.items ++ n_given t leaf (given.now ∷ [])) }
{
    if given.0.0 == 0 {
        return record_given(t, leaf, given, y);
    }
    record_given(t, leaf, given, n)
}

/// A value that a leaf gave, behind these.
fn record_given(
    time: Time,
    leaf: u32,
    given: &(PortNo, Value),
    into: &mut Vec<YRecord>,
) -> Result<(), OutOfMemory>
    ensures { OnOk result (into.new.items ≡ into.old.items
        ++ record { time = time; leaf = leaf; port = given.now.0; value = given.now.1 } ∷ []) }
{
    into.push(YRecord {
        time,
        leaf,
        port: given.0,
        value: ValueBytes::of(given.1),
    })
    .map_err(AllocError::from)?;
    Ok(())
}

/// What reached a leaf.
fn record_taken(
    t: Time,
    leaf: u32,
    bag: &[(PortNo, Value)],
    x: &mut Vec<XRecord>,
) -> Result<(), OutOfMemory>
    ensures { OnOk result (x.new.items ≡ x.old.items
        ++ map (x_at t) (port_records (leaf, bag.now))) }
{
    for taken in bag {
        x.push(XRecord {
            time: t,
            leaf,
            port: taken.0,
            value: ValueBytes::of(taken.1),
        })
        .map_err(AllocError::from)?;
    }
    Ok(())
}

/// The next time that a leaf answered.
fn next_of(answered: Option<Answer>) -> Option<Time>
    ensures { result ≡ next_answered (option_map answer_in answered) }
{
    match answered {
        None => None,
        Some(answer) => answer.next,
    }
}

/// That a leaf moved, if it did.
fn record_move(
    t: Time,
    leaf: u32,
    became: Became,
    next: Option<Time>,
    s: &mut Vec<SRecord>,
) -> Result<(), OutOfMemory>
    ensures { OnOk result
        (s.new.items ≡ s.old.items ++ map (s_at t) (move_record leaf became next)) }
{
    let Became::Moved(value) = became else {
        return Ok(());
    };
    s.push(SRecord {
        time: t,
        leaf,
        value: MaybeValueBytes::of(value),
        next: MaybeTime::of(next),
    })
    .map_err(AllocError::from)?;
    Ok(())
}

/// The values at the outputs of top.
fn record_out(t: Time, bag: &[(PortNo, Value)], out: &mut Vec<OutRecord>) -> Result<(), OutOfMemory>
    ensures { OnOk result (out.new.items ≡ out.old.items ++ map (out_at t) (map out_record bag.now)) }
{
    for given in bag {
        out.push(OutRecord {
            time: t,
            port: given.0.0,
            value: ValueBytes::of(given.1),
        })
        .map_err(AllocError::from)?;
    }
    Ok(())
}
