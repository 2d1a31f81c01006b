// Laws of the runs of accepted models.
ghost use Rattle.answer_model.specs.AcceptedRuns.{DrawingsHaveGroups, EventsAreAtPorts};
ghost use Rattle.answer_model.specs.AcceptedRuns.{EventsAreBounded, FilesAreDrawn, FramesAreDrawn};
ghost use Rattle.answer_model.specs.AcceptedRuns.{GroupsAreNamed, ModelsAreBounded, ModelsAreNamed};
ghost use Rattle.answer_model.specs.AcceptedRuns.{RunsAreDrawn};

use crate::laws::drawn_agrees;
use model_text::accepted::{accepted_models_are_sound, accepted_models_pass_each_phase};
use rule_syntax::texts::the_grammar_is_found;
use run_model::laws::{records_name_what_there_is, values_are_bounded};

/// The values of the events of an accepted file are bounded, and their times at most 99:59:59:999.
pub fn accepted_events_are_bounded()
    ensures { EventsAreBounded }
{}

/// The events of an accepted file are at the ports that it is read with.
pub fn accepted_events_are_at_ports()
    ensures { EventsAreAtPorts }
{}

/// The values that an accepted model has are bounded, and its delays at most 99:59:59:999.
pub fn accepted_models_have_bounded_values()
    ensures { ModelsAreBounded }
{
    the_grammar_is_found();
    accepted_models_pass_each_phase();
    accepted_models_are_sound();
}

/// The leaves of an accepted model, their further ports and their inputs have names.
pub fn accepted_names_are_names()
    ensures { ModelsAreNamed }
{
    accepted_models_have_bounded_values();
    accepted_models_pass_each_phase();
}

/// In an accepted model a leaf's name shows just where the leaf stands in a group.
pub fn accepted_names_show_cells()
    ensures { GroupsAreNamed }
{
    accepted_models_are_sound();
}

/// The group of an accepted drawing stands among the leaves of the model, and has the plane.
pub fn accepted_drawings_have_groups()
    ensures { DrawingsHaveGroups }
{
    accepted_models_pass_each_phase();
    accepted_models_are_sound();
}

/// The frames drawn from the log of a run are those of the run, for each accepted model, its
/// groups, and an end of at most 99:59:59:999: with any bounded events, and with those of an
/// accepted file. So the file of frames that a run makes is what is drawn from its log.
pub fn drawn_agrees_for_accepted_models()
    ensures runs { RunsAreDrawn }
    ensures files { FilesAreDrawn }
    ensures frames { FramesAreDrawn }
{
    accepted_drawings_have_groups();
    accepted_events_are_bounded();
    accepted_models_have_bounded_values();
    accepted_names_are_names();
    accepted_names_show_cells();
    accepted_models_are_sound();
    values_are_bounded();
    records_name_what_there_is();
    drawn_agrees();
}
