// A run, cycle by cycle, each served message by message.
ghost use Rattle.std.specs.Prelude.{◌≡◌, ℕ, ◌≤◌, None, [], length, IfOk, IsTrue};
ghost use Rattle.quantity.specs.declared.bounds.TheConstants.{MAX_DELAY};
ghost use Rattle.model_tree.specs.Tree.{ins_of};
ghost use Rattle.model_tree.specs.Sound.{is_sound_model};
ghost use Rattle.model_leaves.specs.Boxes.{BoxesStand};
ghost use Rattle.run_model.specs.Run.{start, ended, done};
ghost use Rattle.sparse_cycle.specs.Feed.{AreAtInputs};
ghost use Rattle.run_leaves.specs.Seated.{settings_in, tree_at};
ghost use Rattle.std.specs.declared.result.Result.TheVariants.{Ok};
ghost use Rattle.run_leaves.specs.Standing.{next_of_run};
ghost use Rattle.run_leaves.specs.Steps.{Keeps};
ghost use Rattle.served_tree.specs.Processors.{size};
ghost use Rattle.tree_serve.specs.Processing.{tree_on};
ghost use Rattle.tree_serve.specs.declared.started.Started.TheVariants.{Done};
ghost use Rattle.tree_serve.specs.Calls.{IsBetween, Starts, ServesBy, Finishes};

use crate::parts::{leaves_at_start, tables_and_mail};
use crate::started::Started;
use atomic_face::{AtomicModel, PortNo, Stock};
use cell_engine::Steps;
use event_list::Events;
use flat_run::stops::same_stop;
use model_leaves::Model as Tree;
use quantity::{OutOfMemory, Time, Value, earlier};
use run_leaves::{FlatLeaves, Leave};
use run_model::Stop;
use std::alloc::Global;
use std::marker::Model;
use std::mem::forget;
use std::sync::ledger::Ledger;
use text_forms::Records;
use tree_mail::mail::Mail;
use tree_mail::message::Served;
use tree_mail::records::end_of;
use tree_mail::tables::Tables;
use tree_messages::serving::{serve_message, served_by};
use tree_messages::start::{begin, cycles_had, least_time};

/// A run of a model whose cycles are served. It is seen as the state of its leaves as they lie now,
/// the instant of the cycle that is served, what its events put at the inputs of top, when each
/// leaf is due, the messages that wait and what is kept of processors.
#[derive(Drop)]
pub struct TreeRun<M: AtomicModel> {
    leaves: FlatLeaves<M>,
    tables: Tables,
    events: Events,
    end: Time,
    limit: u32,
    last: Option<Time>,
    count: u32,
    stopped: Option<Stop>,
    due: Vec<Option<Time>>,
    instant: Option<Time>,
    inputs: Vec<(PortNo, Value)>,
    mail: Mail,
}

impl<M: AtomicModel> Model for TreeRun<M> {
    ghost use Rattle.model_tree.specs.contracts.component.Component as component;
    ghost use Rattle.std.specs.Coded.{codes};
    ghost use Rattle.tree_serve.specs.Processing.{Processing};
    ghost use Rattle.tree_serve.specs.Holds.{seen_as, HoldsServed};

    ghost Value = { Processing };

    ghost coded = { Prim.hlevel (codes, component.the_row.coded) };

    ghost view = { λ r. seen_as r.leaves r.tables r.events r.end r.limit r.last r.count r.stopped
        r.due.items r.instant r.inputs.items r.mail };

    ghost invariant = { λ r. HoldsServed (seen_as r.leaves r.tables r.events r.end r.limit r.last
        r.count r.stopped r.due.items r.instant r.inputs.items r.mail) r.tables r.mail };
}

impl<M: AtomicModel> TreeRun<M> {
    /// A run of a model before its first cycle, up to `end` and with at most `limit` cycles at one
    /// instant.
    pub fn new(
        alloc: Global,
        model: Tree,
        stock: Stock<M>,
        events: Events,
        end: Time,
        limit: u32,
    ) -> Result<TreeRun<M>, OutOfMemory>
        requires sound { IsTrue (is_sound_model (tree_at model (settings_in stock))) }
        requires boxes { BoxesStand stock model }
        requires at_inputs { AreAtInputs (ins_of (tree_at model (settings_in stock))) events }
        requires end { end ≤ MAX_DELAY }
        requires limit { 1 ≤ limit }
        ensures model { IfOk result (λ r. r.standing.model ≡ model) }
        ensures settings { IfOk result (λ r. r.standing.settings ≡ settings_in stock) }
        ensures state { IfOk result (λ r. r.standing.state ≡ start (tree_on r) events) }
        ensures end { IfOk result (λ r. r.standing.end ≡ end) }
        ensures limit { IfOk result (λ r. r.standing.limit ≡ limit) }
        ensures goes { IfOk result (λ r. r.standing.stopped ≡ None) }
        ensures between { IfOk result IsBetween }
    {
        run_model::laws::records_name_what_there_is();
        let (leaves, due) = leaves_at_start(alloc, model, stock)?;
        match tables_and_mail(alloc, leaves.model()) {
            Ok((tables, mail)) => Ok(TreeRun {
                leaves,
                tables,
                events,
                end,
                limit,
                last: None,
                count: 0,
                stopped: None,
                due,
                instant: None,
                inputs: Vec::new(alloc),
                mail,
            }),
            Err(OutOfMemory) => {
                leaves.release();
                Err(OutOfMemory)
            }
        }
    }

    /// How many processors there are.
    pub fn processors(&self) -> u32
        ensures { result ≡ size (tree_on self.now) }
    {
        self.tables.count
    }

    /// How many messages wait.
    pub fn waiting(&self) -> usize
        ensures { result ≡ length self.now.service.waiting }
    {
        self.mail.waiting.len()
    }

    /// The model.
    pub fn model(&self) -> &Tree
        ensures { result.now ≡ self.now.standing.model }
    {
        self.leaves.model()
    }

    /// Starts the cycle that is due: the question to top waits. Or says how the run ended; after a
    /// stop the same stop is answered for ever, and after Done, Done.
    pub fn start(&mut self) -> Result<Started, Stop>
        requires between { IsBetween self.old }
        ensures starts { Starts self.old.standing.stopped self.old result self.new }
        ensures done { self.old.standing.stopped ≡ None
            → next_of_run self.old.standing ≡ ended done → result ≡ Ok Done }
    {
        served_tree::laws::any_order_serves();
        sparse_cycle::laws::events_stand_by_number();
        if let Some(stop) = self.stopped {
            return Err(stop);
        }
        let Some(t) = earlier(least_time(&self.due), self.events.next()) else {
            return Ok(Started::Done);
        };
        if self.end.ms() < t.ms() {
            return Ok(Started::Done);
        }
        if self.limit <= cycles_had(self.last, self.count, t) {
            self.stopped = Some(Stop::TooManyCycles(t));
            return Err(Stop::TooManyCycles(t));
        }
        match begin(
            t,
            &self.tables.entries,
            &mut self.events,
            &mut self.inputs,
            &mut self.mail,
        ) {
            Ok(()) => {
                self.instant = Some(t);
                Ok(Started::Cycle(t))
            }
            Err(OutOfMemory) => {
                self.mail.clear();
                self.stopped = Some(Stop::Memory);
                Err(Stop::Memory)
            }
        }
    }

    /// Serves the message at place `number` modulo the number of those that wait. Without memory the
    /// run stops.
    pub fn serve<L: Ledger>(
        &mut self,
        number: u32,
        steps: &mut Steps<L>,
    ) -> Result<Served, OutOfMemory>
        requires waits { 1 ≤ length self.old.service.waiting }
        ensures serves { ServesBy self.old number result self.new }
        ensures keeps { Keeps self.old.standing self.new.standing }
    {
        served_tree::laws::rows_bring_what_links_bring();
        sparse_cycle::laws::leaves_move_in_any_order();
        let Some(t) = self.instant else {
            unreachable!()
        };
        let place = number as usize % self.mail.waiting.len();
        let message = self.mail.waiting.take(place);
        let served = served_by(&self.tables.entries, &message);
        match serve_message(
            &self.tables,
            t,
            &self.inputs,
            message,
            &mut self.due,
            &mut self.leaves,
            &mut self.mail,
            steps,
        ) {
            Ok(()) => Ok(served),
            Err(OutOfMemory) => {
                self.mail.clear();
                self.instant = None;
                self.stopped = Some(Stop::Memory);
                Err(OutOfMemory)
            }
        }
    }

    /// Ends the cycle that was served: its records, or its stop, after which there are none.
    pub fn finish(&mut self, records: &mut Records) -> Result<Time, Stop>
        requires nothing_waits { self.old.service.waiting ≡ [] }
        requires begun { (self.old.instant ≡ None → self.old.standing.stopped ≡ None → ⊥) }
        ensures { Finishes self.old.standing.stopped self.old result self.new records.new }
    {
        served_tree::laws::any_order_serves();
        run_model::laws::records_name_what_there_is();
        records.clear();
        if let Some(stop) = self.stopped {
            return Err(stop);
        }
        let Some(t) = self.instant else {
            unreachable!()
        };
        let ended = end_of(t, &self.tables.entries, &self.mail, records);
        self.mail.clear();
        self.instant = None;
        match ended {
            Ok(()) => {
                self.count = cycles_had(self.last, self.count, t) + 1;
                self.last = Some(t);
                Ok(t)
            }
            Err(stop) => {
                records.clear();
                self.stopped = Some(same_stop(&stop));
                Err(stop)
            }
        }
    }
}

impl<M: AtomicModel> Leave for TreeRun<M> {
    fn leave(self) {
        let TreeRun {
            leaves,
            tables,
            events,
            due,
            inputs,
            mail,
            ..
        } = self;
        leaves.leave();
        forget(tables);
        forget(events);
        forget(due);
        forget(inputs);
        forget(mail);
    }
}
