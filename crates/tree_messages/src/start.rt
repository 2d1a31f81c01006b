// What a served run starts with, what an instant's events put at the inputs of top, and how a cycle
// counts.
ghost use Rattle.std.specs.Prelude.{◌≡◌, ◌≤◌, ◌==◌, not, [], ◌∷◌, map, IfOk, OnOk, if◌then◌else◌};
ghost use Rattle.std.specs.List.{All, filter};
ghost use Rattle.atomic_face.specs.Classes.{is_at};
ghost use Rattle.event_list.specs.Events.{Event as AnyEvent};
ghost use Rattle.run_model.specs.Cycle.{leaf_next};
ghost use Rattle.run_leaves.specs.Waiting.{WaitsAtStart};
ghost use Rattle.served_tree.specs.Service.{collect};
ghost use Rattle.tree_mail.specs.Notes.{notes_of, fresh_note};
ghost use Rattle.tree_mail.specs.Puts.{Puts};
ghost use Rattle.tree_messages.specs.Starting.{least_among, at_input, SortsByInput, AreInputsOf};

use atomic_face::{AtomicModel, PortNo};
use event_list::Events;
use quantity::{OutOfMemory, Time, Value, earlier};
use run_leaves::FlatLeaves;
use std::alloc::{AllocError, Global};
use tree_mail::mail::Mail;
use tree_tables::Entry;

/// When each leaf is due at its start.
pub fn start_times<M: AtomicModel>(
    alloc: Global,
    leaves: &FlatLeaves<M>,
) -> Result<Vec<Option<Time>>, OutOfMemory>
    requires { All WaitsAtStart leaves.now.states }
    ensures { IfOk result (λ times. times.items ≡ map leaf_next leaves.now.states) }
{
    let mut times = Vec::with_capacity(alloc, leaves.count() as usize)?;
    for leaf in 0..leaves.count() {
        times
            .push(leaves.start_time(leaf))
            .map_err(AllocError::from)?;
    }
    Ok(times)
}

/// The least of these times.
pub fn least_time(times: &[Option<Time>]) -> Option<Time>
    ensures { result ≡ least_among times.now }
{
    let mut least = None;
    for time in times {
        least = earlier(least, *time);
    }
    least
}

/// A cycle begins: its events are taken, and the question to top waits.
pub fn begin(
    t: Time,
    entries: &[Entry],
    events: &mut Events,
    inputs: &mut Vec<(PortNo, Value)>,
    mail: &mut Mail,
) -> Result<(), OutOfMemory>
    requires { All (λ (e : AnyEvent). t ≤ e.time) events.old }
    ensures inputs { OnOk result (AreInputsOf t events.old inputs.new.items) }
    ensures events { OnOk result
        (events.new ≡ filter (λ (e : AnyEvent). not (e.time == t)) events.old) }
    ensures waiting { OnOk result (Puts mail.old.waiting mail.new.waiting (collect 0 ∷ [])) }
    ensures kept { OnOk result (notes_of mail.new.kept.items ≡ map fresh_note entries.now) }
{
    take_inputs(events, t, inputs)?;
    mail.begin(entries)
}

/// Takes the events of the instant: what they put at the inputs of top, by the numbers of these, in
/// place of what the list holds.
fn take_inputs(
    events: &mut Events,
    t: Time,
    inputs: &mut Vec<(PortNo, Value)>,
) -> Result<(), OutOfMemory>
    requires { All (λ (e : AnyEvent). t ≤ e.time) events.old }
    ensures inputs { OnOk result (AreInputsOf t events.old inputs.new.items) }
    ensures left { OnOk result
        (events.new ≡ filter (λ (e : AnyEvent). not (e.time == t)) events.old) }
{
    let mut taken = Vec::new(*inputs.allocator());
    events.take(t, &mut taken)?;
    sort_by_input(&mut taken)?;
    put_all(&taken, inputs)
}

/// Sorts values by their inputs; those of one input keep their order.
fn sort_by_input(values: &mut Vec<(u16, Value)>) -> Result<(), OutOfMemory>
    ensures { OnOk result (SortsByInput values.old.items values.new.items) }
{
    values.sort_by_key(|value| value.0)?;
    Ok(())
}

/// These values at their inputs, in place of what the list holds.
fn put_all(values: &[(u16, Value)], into: &mut Vec<(PortNo, Value)>) -> Result<(), OutOfMemory>
    ensures { OnOk result (into.new.items ≡ map at_input values.now) }
{
    into.clear();
    for value in values {
        into.push((PortNo(value.0), value.1))
            .map_err(AllocError::from)?;
    }
    Ok(())
}

/// How many cycles this instant has had.
pub fn cycles_had(last: Option<Time>, count: u32, t: Time) -> u32
    ensures { result ≡ (if is_at t last then count else 0) }
{
    let Some(at) = last else {
        return 0;
    };
    if at.ms() == t.ms() { count } else { 0 }
}
