// Runs of which the next cycle can be asked for.
use crate::progress::Progress;
use cell_engine::Steps;
use model_leaves::Model as Tree;
use run_model::Stop;
use std::sync::ledger::Ledger;
use text_forms::Records;

/// A run that goes on by one cycle with each call, whichever way it makes its cycles.
pub trait Cycles<L: Ledger> {
    ghost use Rattle.std.specs.Prelude.{◌≡◌, ◌+◌, ◌≤◌, Bool, Option, None};
    ghost use Rattle.std.specs.Bool.{OnTrue};
    ghost use Rattle.std.specs.Option.{option_map};
    ghost use Rattle.std.specs.declared.result.Result.TheVariants.{Ok};
    ghost use Rattle.run_model.specs.Run.{ended, done};
    ghost use Rattle.run_leaves.specs.declared.progress.Progress.TheVariants.{Done};
    ghost use Rattle.run_leaves.specs.Marking.{Marking, Marks};
    ghost use Rattle.run_leaves.specs.Standing.{Standing, next_of_run};
    ghost use Rattle.run_leaves.specs.Steps.{Goes, visits_of};

    /// Where the run stands.
    ghost standing: { Self → Standing };

    /// The seed that is left and the mark, where its messages are served in an order.
    ghost marking: { Self → Option Marking };

    /// Whether its visits are bounded.
    ghost is_counted: { Bool };

    /// Runs the next cycle, whose records are then those in `records`, or says how the run ended;
    /// then there are none. After a stop the same stop is answered for ever, and after Done, Done.
    fn cycle(&mut self, records: &mut Records, steps: &mut Steps<L>) -> Result<Progress, Stop>
        ensures goes { Goes (standing self.old).stopped (standing self.old) result
            (standing self.new) records.new }
        ensures marks { Marks (marking self.old) (standing self.old).stopped (standing self.old)
            result (marking self.new) }
        ensures visits { OnTrue is_counted
            (steps.new ≤ steps.old + visits_of (standing self.old)
            (next_of_run (standing self.old))) }
        ensures done { (standing self.old).stopped ≡ None
            → next_of_run (standing self.old) ≡ ended done → result ≡ Ok Done };

    /// The model.
    fn model(&self) -> &Tree
        ensures { result.now ≡ (standing self.now).model };

    /// The mark of the messages that were served, 0 to 999999; None where they have no order.
    fn mark(&self) -> Option<u32>
        ensures { result ≡ option_map (λ m. m.mark) (marking self.now) };
}
