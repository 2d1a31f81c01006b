// What is known of the cycles of every run.
ghost use Rattle.run_loop.specs.Known.{RunsAreFit};

use run_model::laws::{a_run_ends, instants_never_fall, records_name_what_there_is};

/// A run from a state that fits the model, and in which all waits from a time on, has a verdict. Its
/// cycles name leaves and ports that there are, their instants never fall, and it leaves states that
/// fit the model.
pub fn runs_are_fit()
    ensures { RunsAreFit }
{
    a_run_ends();
    instants_never_fall();
    records_name_what_there_is();
}
