// What a run starts with.
ghost use Rattle.std.specs.Prelude.{◌≡◌, Some, None, IfOk};
ghost use Rattle.std.specs.Option.{option_map};
ghost use Rattle.model_tree.specs.Tree.{ins_of};
ghost use Rattle.model_leaves.specs.Leaves.{OfTree};
ghost use Rattle.route_flat.specs.Nets.{RoutesOf};
ghost use Rattle.sparse_cycle.specs.Feed.{AreAtInputs};
ghost use Rattle.run_leaves.specs.Marking.{at_seed};
ghost use Rattle.asked_run.specs.Starting.{tree_on, CanRun, MayGoOn, RunsMayRun, IsMadeFor};
ghost use Rattle.asked_run.specs.Ways.{standing_in, marking_in};

use crate::way::Way;
use answer_model::laws::resumed_runs_end;
use asked_words::{Asked, GroupAt};
use atomic_face::{AtomicModel, Stock};
use event_list::Events;
use flat_run::FlatRun;
use model_leaves::Model;
use quantity::OutOfMemory;
use route_flat::Routes;
use run_model::laws::{nothing_waits_in_the_past, records_name_what_there_is};
use state_file::laws::read_states_fit;
use std::alloc::Global;
use time_queue::LinkedQueue;
use tree_serve::{ServedRun, TreeRun};

/// What is asked for, the group that is drawn, and the run of the model that was read, before its
/// first cycle.
#[derive(Drop)]
pub struct Start<'a, M: AtomicModel> {
    pub asked: Asked<'a>,
    pub drawn: Option<GroupAt>,
    pub run: Way<FlatRun<LinkedQueue, M>, ServedRun<M>>,
}

/// The run of a model at its start, with this stock and these events: its messages are served in
/// the order of the seed that is asked for, where one is.
pub fn run_at_start<M: AtomicModel>(
    alloc: Global,
    asked: &Asked<'_>,
    model: Model,
    routes: Routes,
    stock: Stock<M>,
    events: Events,
) -> Result<Way<FlatRun<LinkedQueue, M>, ServedRun<M>>, OutOfMemory>
    requires can_run { CanRun asked.now stock model }
    requires routes_are { OfTree model (λ t. RoutesOf t routes) }
    requires at_inputs { AreAtInputs (ins_of (tree_on model stock)) events }
    ensures made { IfOk result (λ w. IsMadeFor asked.now model stock events (standing_in w)) }
    ensures may_go_on { IfOk result (λ w. MayGoOn (standing_in w)) }
    ensures marked { IfOk result
        (λ w. marking_in w ≡ option_map at_seed asked.now.given.seed) }
{
    match asked.given.seed {
        None => flat_at_start(alloc, asked, model, routes, stock, events),
        Some(seed) => served_at_start(alloc, asked, model, stock, events, seed),
    }
}

/// The flat run of a model at its start, with this stock and these events.
fn flat_at_start<M: AtomicModel>(
    alloc: Global,
    asked: &Asked<'_>,
    model: Model,
    routes: Routes,
    stock: Stock<M>,
    events: Events,
) -> Result<Way<FlatRun<LinkedQueue, M>, ServedRun<M>>, OutOfMemory>
    requires can_run { CanRun asked.now stock model }
    requires routes_are { OfTree model (λ t. RoutesOf t routes) }
    requires at_inputs { AreAtInputs (ins_of (tree_on model stock)) events }
    ensures made { IfOk result (λ w. IsMadeFor asked.now model stock events (standing_in w)) }
    ensures may_go_on { IfOk result (λ w. MayGoOn (standing_in w)) }
    ensures marked { IfOk result (λ w. marking_in w ≡ None) }
{
    records_name_what_there_is();
    let Ok(queue) = LinkedQueue::with_leaves(alloc, model.leaves()) else {
        release(model, routes, stock);
        return Err(OutOfMemory);
    };
    let run = FlatRun::new(
        alloc,
        model,
        routes,
        stock,
        events,
        queue,
        asked.end,
        asked.given.limit,
    )?;
    Ok(Way::Flat(run))
}

/// Gives back the memory of what no run is made of. How all its parts are let go is proved here,
/// once for every call.
pub fn release<M: AtomicModel>(_model: Model, _routes: Routes, _stock: Stock<M>) {}

/// The same run, with messages that are served in the order of this seed.
fn served_at_start<M: AtomicModel>(
    alloc: Global,
    asked: &Asked<'_>,
    model: Model,
    stock: Stock<M>,
    events: Events,
    seed: u32,
) -> Result<Way<FlatRun<LinkedQueue, M>, ServedRun<M>>, OutOfMemory>
    requires can_run { CanRun asked.now stock model }
    requires at_inputs { AreAtInputs (ins_of (tree_on model stock)) events }
    ensures made { IfOk result (λ w. IsMadeFor asked.now model stock events (standing_in w)) }
    ensures may_go_on { IfOk result (λ w. MayGoOn (standing_in w)) }
    ensures marked { IfOk result (λ w. marking_in w ≡ Some (at_seed seed)) }
{
    records_name_what_there_is();
    let run = TreeRun::new(alloc, model, stock, events, asked.end, asked.given.limit)?;
    Ok(Way::Served(ServedRun::new(run, seed)))
}

/// What may be started may be run: from its start, and from each state that is read.
pub fn runs_may_run()
    ensures { RunsMayRun }
{
    nothing_waits_in_the_past();
    records_name_what_there_is();
    resumed_runs_end();
    read_states_fit();
}
