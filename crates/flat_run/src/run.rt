// A run, cycle by cycle.
ghost use Rattle.std.specs.Prelude.{◌≡◌, ℕ, ◌+◌, ◌<◌, ◌≤◌, None, [], length, OnOk, OnErr, IfOk, IsTrue, nat_lt};
ghost use Rattle.std.specs.List.{filter};
ghost use Rattle.quantity.specs.declared.bounds.TheConstants.{MAX_DELAY};
ghost use Rattle.atomic_face.specs.Held.{Held};
ghost use Rattle.atomic_face.specs.BoxCalls.{RestoreGives};
ghost use Rattle.event_list.specs.Events.{Event as AnyEvent};
ghost use Rattle.quantity.specs.Times.{earlier};
ghost use Rattle.run_model.specs.Run.{start, next_instant, cycles_at, ended, done};
ghost use Rattle.std.specs.declared.result.Result.TheVariants.{Ok};
ghost use Rattle.run_leaves.specs.declared.progress.Progress.TheVariants.{Done};
ghost use Rattle.run_model.specs.Cycle.{cell_state, leaf_next, box_state};
ghost use Rattle.text_forms.specs.Held.{AreEmpty};
ghost use Rattle.sparse_cycle.specs.Sparse.{leaf_of};
ghost use Rattle.cell_table.specs.Saved.{cell_of_saved};
ghost use Rattle.run_leaves.specs.Seated.{is_box, settings_in};
ghost use Rattle.run_leaves.specs.Standing.{tree_in, next_of_run};
ghost use Rattle.run_leaves.specs.Steps.{Steps as StepsTo, Goes, visits_of};
ghost use Rattle.flat_run.specs.Changes.{StartsFrom, CanPut, with_leaf_state, with_events, is_cell_state, words_of};

use crate::cycle::{cycles_had, run_cycle};
use crate::parts::Parts;
use crate::put::least_time;
use crate::start::{routes_are_ready, wait_all};
use crate::stops::same_stop;
use atomic_face::{AtomicModel, RestoreRefusal, Stock};
use cell_engine::{CellState, Steps};
use cycle_steps::waiting::set_next;
use event_list::Events;
use model_leaves::Model as Tree;
use quantity::{OutOfMemory, Time, earlier};
use route_flat::Routes;
use run_leaves::{Leave, Progress};
use run_model::Stop;
use std::alloc::Global;
use std::marker::Model;
use std::mem::forget;
use std::sync::ledger::Ledger;
use text_forms::Records;
use time_queue::TimeQueue;

/// A run of a model. It is seen as the model, the state of the reference run, the end, the limit,
/// and why it stopped.
#[derive(Drop)]
pub struct FlatRun<Q: TimeQueue, M: AtomicModel> {
    parts: Parts<M>,
    routes: Routes,
    events: Events,
    queue: Q,
    end: Time,
    limit: u32,
    last: Option<Time>,
    count: u32,
    stopped: Option<Stop>,
}

impl<Q: TimeQueue, M: AtomicModel> Model for FlatRun<Q, M> {
    ghost use Rattle.std.specs.Prelude.{vec_capacity};
    ghost use Rattle.model_tree.specs.contracts.component.Component as component;
    ghost use Rattle.std.specs.Coded.{codes};
    ghost use Rattle.run_leaves.specs.Standing.{Standing};
    ghost use Rattle.flat_run.specs.Holds.{HoldsRun};

    ghost Value = { Standing };

    ghost coded = { Prim.hlevel (codes, component.the_row.coded) };

    ghost view = { λ r. record {
      model = r.parts.leaves.model;
      settings = r.parts.leaves.settings;
      state = record {
        leaf_states = r.parts.leaves.states;
        events = r.events;
        last = r.last;
        count = r.count;
      };
      end = r.end;
      limit = r.limit;
      stopped = r.stopped;
    } };

    ghost invariant = { λ r. HoldsRun r.parts.leaves r.routes r.parts.watchers r.events
        (Q.waiting r.queue) r.parts.work.woken r.parts.work.touched
        (vec_capacity r.parts.work.due) (vec_capacity r.parts.work.moving)
        r.end r.limit r.count r.stopped };
}

impl<Q: TimeQueue, M: AtomicModel> FlatRun<Q, M> {
    /// A run of a model before its first cycle, up to `end` and with at most `limit` cycles at one
    /// instant.
    pub fn new(
        alloc: Global,
        model: Tree,
        routes: Routes,
        stock: Stock<M>,
        events: Events,
        queue: Q,
        end: Time,
        limit: u32,
    ) -> Result<FlatRun<Q, M>, OutOfMemory>
        requires starts { StartsFrom model stock routes events (Q.waiting queue) }
        requires end { end ≤ MAX_DELAY }
        requires limit { 1 ≤ limit }
        ensures model { IfOk result (λ r. r.model ≡ model) }
        ensures settings { IfOk result (λ r. r.settings ≡ settings_in stock) }
        ensures state { IfOk result (λ r. r.state ≡ start (tree_in r) events) }
        ensures end { IfOk result (λ r. r.end ≡ end) }
        ensures limit { IfOk result (λ r. r.limit ≡ limit) }
        ensures goes { IfOk result (λ r. r.stopped ≡ None) }
    {
        routes_are_ready();
        run_model::laws::records_name_what_there_is();
        let parts = Parts::new(alloc, model, stock)?;
        let mut queue = queue;
        wait_all(&parts.leaves, &mut queue);
        Ok(FlatRun {
            parts,
            routes,
            events,
            queue,
            end,
            limit,
            last: None,
            count: 0,
            stopped: None,
        })
    }

    /// Runs the next cycle, whose records are then those in `records`, or says how the run ended;
    /// then there are none. After a stop the same stop is answered for ever, and after Done, Done.
    pub fn cycle<L: Ledger>(
        &mut self,
        records: &mut Records,
        steps: &mut Steps<L>,
    ) -> Result<Progress, Stop>
        ensures goes { Goes self.old.stopped self.old result self.new records.new }
        ensures visits { steps.new ≤ steps.old + visits_of self.old (next_of_run self.old) }
        ensures done { self.old.stopped ≡ None → next_of_run self.old ≡ ended done → result
            ≡ Ok Done }
    {
        records.clear();
        if let Some(stop) = self.stopped {
            return Err(stop);
        }
        let Some(t) = self.next_time() else {
            return Ok(Progress::Done);
        };
        if self.end.ms() < t.ms() {
            return Ok(Progress::Done);
        }
        let had = cycles_had(self.last, self.count, t);
        if self.limit <= had {
            self.stopped = Some(Stop::TooManyCycles(t));
            return Err(Stop::TooManyCycles(t));
        }
        self.cycle_at(t, had, records, steps)
    }

    /// Runs the cycle at the next instant, which has had so many cycles.
    fn cycle_at<L: Ledger>(
        &mut self,
        t: Time,
        had: u32,
        records: &mut Records,
        steps: &mut Steps<L>,
    ) -> Result<Progress, Stop>
        requires goes { self.old.stopped ≡ None }
        requires instant { next_instant self.old.state ≡ Some t }
        requires within { t ≤ self.old.end }
        requires had { had ≡ cycles_at t self.old.state }
        requires few { had < self.old.limit }
        requires records { AreEmpty records.old }
        ensures steps { StepsTo self.old result self.new records.new }
        ensures visits { steps.new ≤ steps.old + visits_of self.old (next_of_run self.old) }
    {
        sparse_cycle::laws::a_cycle_is_what_its_leaves_make_of_it();
        sparse_cycle::laws::a_stopping_cycle_costs_its_parts();
        sparse_cycle::laws::leaves_move_one_after_another();
        let result = run_cycle(
            &mut self.parts,
            &self.routes,
            &mut self.events,
            &mut self.queue,
            t,
            records,
            steps,
        );
        match result {
            Ok(()) => {
                self.last = Some(t);
                self.count = had + 1;
                Ok(Progress::Cycled(t))
            }
            Err(stop) => {
                records.clear();
                self.stopped = Some(same_stop(&stop));
                Err(stop)
            }
        }
    }

    /// The instant of the next cycle, None where nothing waits.
    pub fn next_time(&self) -> Option<Time>
        requires { self.now.stopped ≡ None }
        ensures { result ≡ next_instant self.now.state }
    {
        sparse_cycle::laws::leaves_move_one_after_another();
        earlier(self.queue.least(), self.events.next())
    }

    /// The model.
    pub fn model(&self) -> &Tree
        ensures { result.now ≡ self.now.model }
    {
        self.parts.leaves.model()
    }

    /// The state of a cell. It takes one visit.
    pub fn cell_state<L: Ledger>(
        &self,
        leaf: u32,
        steps: &mut Steps<L>,
    ) -> Result<CellState, OutOfMemory>
        requires goes { self.now.stopped ≡ None }
        requires cell { IsTrue (is_cell_state (leaf_of self.now.state.leaf_states leaf)) }
        requires within { leaf < length self.now.state.leaf_states }
        ensures state { IfOk result (λ c. leaf_of self.now.state.leaf_states leaf
            ≡ cell_state (cell_of_saved c)) }
        ensures visits { steps.new ≡ steps.old + 1 }
    {
        let alloc = *self.parts.work.due.allocator();
        self.parts.leaves.save_cell(alloc, leaf, steps)
    }

    /// The numbers of the state of a leaf's box.
    pub fn box_state(&self, leaf: u32) -> Result<Vec<i64>, OutOfMemory>
        requires goes { self.now.stopped ≡ None }
        requires leaf { IsTrue (is_box (leaf_of self.now.state.leaf_states leaf)) }
        ensures state { IfOk result (λ words. words.items
            ≡ words_of (leaf_of self.now.state.leaf_states leaf)) }
    {
        let mut words = Vec::new(*self.parts.work.due.allocator());
        self.parts.leaves.save_box(leaf, &mut words)?;
        Ok(words)
    }

    /// The next time of a leaf's box. It takes no memory.
    pub fn box_next(&self, leaf: u32) -> Option<Time>
        requires goes { self.now.stopped ≡ None }
        requires leaf { IsTrue (is_box (leaf_of self.now.state.leaf_states leaf)) }
        ensures { result ≡ leaf_next (leaf_of self.now.state.leaf_states leaf) }
    {
        self.parts.leaves.box_next(leaf)
    }

    /// The cell has this state, before the first cycle. Without memory nothing changes.
    pub fn put_cell(&mut self, leaf: u32, state: &CellState) -> Result<(), OutOfMemory>
        requires fresh { (self.old.state.last ≡ None) × (self.old.stopped ≡ None) }
        requires state { CanPut (tree_in self.old) leaf (cell_of_saved state.now) }
        ensures ok { OnOk result (self.new
            ≡ with_leaf_state self.old leaf (cell_state (cell_of_saved state.now))) }
        ensures err { OnErr result (self.new ≡ self.old) }
    {
        self.parts.leaves.put_cell(leaf, state)?;
        set_next(&mut self.queue, leaf, least_time(&state.ports));
        Ok(())
    }

    /// The leaf's box has the state of these numbers, before the first cycle. BadState exactly
    /// where they are none of its class with its settings; a refusal changes nothing.
    pub fn put_box(&mut self, leaf: u32, words: &[i64]) -> Result<(), RestoreRefusal>
        requires fresh { (self.old.state.last ≡ None) × (self.old.stopped ≡ None) }
        requires leaf { IsTrue (is_box (leaf_of self.old.state.leaf_states leaf)) }
        ensures { (b : Held) → leaf_of self.old.state.leaf_states leaf ≡ box_state b
            → (c : Held) × RestoreGives words.now b c result
            × (self.new ≡ with_leaf_state self.old leaf (box_state c)) }
    {
        let alloc = *self.parts.work.due.allocator();
        self.parts.leaves.put_box(alloc, leaf, words)?;
        set_next(&mut self.queue, leaf, self.parts.leaves.box_next(leaf));
        Ok(())
    }

    /// Drops the events up to this time, before the first cycle. It takes no memory.
    pub fn skip(&mut self, to: Time)
        requires fresh { (self.old.state.last ≡ None) × (self.old.stopped ≡ None) }
        ensures { self.new ≡ with_events self.old
            (filter (λ (e : AnyEvent). nat_lt to e.time) self.old.state.events) }
    {
        self.events.skip(to);
    }
}

impl<Q: TimeQueue, M: AtomicModel> Leave for FlatRun<Q, M> {
    fn leave(self) {
        let FlatRun {
            parts,
            routes,
            events,
            queue,
            ..
        } = self;
        let Parts {
            leaves,
            watchers,
            work,
        } = parts;
        leaves.leave();
        forget(routes);
        forget(watchers);
        forget(work);
        forget(events);
        forget(queue);
    }
}
