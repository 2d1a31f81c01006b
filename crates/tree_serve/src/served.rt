// A served run as a run of which the next cycle can be asked for.
ghost use Rattle.std.specs.Prelude.{◌≡◌, Some, None};
ghost use Rattle.std.specs.declared.result.Result.TheVariants.{Ok};
ghost use Rattle.run_model.specs.Run.{ended, done};
ghost use Rattle.text_forms.specs.Held.{AreEmpty};
ghost use Rattle.run_leaves.specs.Marking.{at_seed, Marks};
ghost use Rattle.run_leaves.specs.declared.progress.Progress.TheVariants.{Done};
ghost use Rattle.run_leaves.specs.Standing.{next_of_run};
ghost use Rattle.run_leaves.specs.Steps.{Goes};
ghost use Rattle.tree_serve.specs.Calls.{IsBetween};
ghost use Rattle.tree_serve.specs.Ordered.{marking_of, HasBegun, EndsCycle, MarksCycle};

use crate::ordered::{Order, serve_all};
use crate::run::TreeRun;
use crate::started::Started;
use atomic_face::AtomicModel;
use cell_engine::Steps;
use model_leaves::Model as Tree;
use run_leaves::{Cycles, Leave, Progress};
use run_model::Stop;
use std::marker::Model;
use std::sync::ledger::Ledger;
use text_forms::Records;

/// A run whose messages are served in the order of a seed. It is seen as where it stands, with the
/// seed that is left and the mark of that order.
#[derive(Drop)]
pub struct ServedRun<M: AtomicModel> {
    run: TreeRun<M>,
    order: Order,
}

impl<M: AtomicModel> Model for ServedRun<M> {
    ghost use Rattle.model_tree.specs.contracts.component.Component as component;
    ghost use Rattle.std.specs.Coded.{codes};
    ghost use Rattle.tree_serve.specs.Calls.{IsBetween};
    ghost use Rattle.tree_serve.specs.Ordered.{marking_of};
    ghost use Rattle.tree_serve.specs.OrderedRun.{OrderedRun};

    ghost Value = { OrderedRun };

    ghost coded = { Prim.hlevel (codes, component.the_row.coded) };

    ghost view = { λ r. record { standing = r.run.standing; marking = marking_of r.order } };

    ghost invariant = { λ r. IsBetween r.run };
}

impl<M: AtomicModel> ServedRun<M> {
    /// A run that is to be served in the order of this seed. Its mark is 0.
    pub fn new(run: TreeRun<M>, seed: u32) -> ServedRun<M>
        requires { IsBetween run }
        ensures standing { result.standing ≡ run.standing }
        ensures marking { result.marking ≡ at_seed seed }
    {
        ServedRun {
            run,
            order: Order { seed, mark: 0 },
        }
    }
}

impl<M: AtomicModel, L: Ledger> Cycles<L> for ServedRun<M> {
    ghost use Rattle.std.specs.Prelude.{Some, false};

    ghost standing = { λ r. r.standing };

    ghost marking = { λ r. Some r.marking };

    ghost is_counted = { false };

    fn cycle(&mut self, records: &mut Records, steps: &mut Steps<L>) -> Result<Progress, Stop> {
        next_cycle(&mut self.run, &mut self.order, records, steps)
    }

    fn model(&self) -> &Tree {
        self.run.model()
    }

    fn mark(&self) -> Option<u32> {
        Some(self.order.mark)
    }
}

impl<M: AtomicModel> Leave for ServedRun<M> {
    fn leave(self) {
        let ServedRun { run, order: _ } = self;
        run.leave();
    }
}

/// Starts the cycle that is due, and serves it; or says how the run ended.
fn next_cycle<M: AtomicModel, L: Ledger>(
    run: &mut TreeRun<M>,
    order: &mut Order,
    records: &mut Records,
    steps: &mut Steps<L>,
) -> Result<Progress, Stop>
    requires between { IsBetween run.old }
    ensures goes { Goes run.old.standing.stopped run.old.standing result
        run.new.standing records.new }
    ensures marks { Marks (Some (marking_of order.old)) run.old.standing.stopped run.old.standing
        result (Some (marking_of order.new)) }
    ensures done { run.old.standing.stopped ≡ None
        → next_of_run run.old.standing ≡ ended done → result ≡ Ok Done }
    ensures between { IsBetween run.new }
{
    records.clear();
    let started = match run.start() {
        Ok(started) => started,
        Err(stop) => return Err(stop),
    };
    match started {
        Started::Done => Ok(Progress::Done),
        Started::Cycle(_) => serve_cycle(run, order, records, steps),
    }
}

/// Serves the cycle that has begun, and ends it.
fn serve_cycle<M: AtomicModel, L: Ledger>(
    run: &mut TreeRun<M>,
    order: &mut Order,
    records: &mut Records,
    steps: &mut Steps<L>,
) -> Result<Progress, Stop>
    requires begun { HasBegun run.old }
    requires records { AreEmpty records.old }
    ensures goes { EndsCycle run.old result run.new records.new }
    ensures marks { MarksCycle run.old order.old result order.new }
    ensures between { IsBetween run.new }
{
    served_tree::laws::any_order_serves();
    let Ok(()) = serve_all(run, order, steps) else {
        return Err(Stop::Memory);
    };
    match run.finish(records) {
        Ok(t) => Ok(Progress::Cycled(t)),
        Err(stop) => Err(stop),
    }
}
