//! Laws of what the program writes.
ghost use Rattle.answer_model.specs.AcceptedRuns.{RunsAreDrawn, FilesAreDrawn, FramesAreDrawn};
ghost use Rattle.asked_run.specs.Leaving.{OnlyRunsLeave};

use answer_model::drawn::drawn_agrees_for_accepted_models;

/// The frames drawn from the log of a run are those of the run, for every accepted model and its
/// groups: with any bounded events, and with those of an accepted file. So the file of frames that
/// a run makes is what is drawn from its log.
pub fn drawn_agrees()
    ensures runs { RunsAreDrawn }
    ensures files { FilesAreDrawn }
    ensures frames { FramesAreDrawn }
{
    drawn_agrees_for_accepted_models();
}

/// Where the status is none that a run ends with, as that of a missing file, of a read fault or of
/// what is refused, no file is made and no leaf is visited.
pub fn only_runs_leave()
    ensures { OnlyRunsLeave }
{}
