// Laws of the models that are accepted.
ghost use Rattle.model_text.specs.Accepted.{FirstPhaseDecides, PassesEachPhase, ComponentsDiffer};
ghost use Rattle.model_text.specs.Accepted.{AtomicsFit, LinksAreAccepted};
ghost use Rattle.model_text.specs.Accepted.{ReadsSoundModels};
ghost use Rattle.model_text.specs.GroupLaws.{OffsetsAreRight, ValuesFit, SizesAreRight};
ghost use Rattle.model_text.specs.GroupLaws.{NamesAreRight, NumbersAreRight, GroupsAreSound};

/// The first phase that refuses decides, in the order of the phases.
#[tactic(auto, using(crate::proofs::Phases::first_phase_decides))]
pub fn first_phase_decides()
    ensures { FirstPhaseDecides }
{}

/// A model that is accepted is refused by no phase, and is the tree of the file's sections.
#[tactic(auto, using(crate::proofs::Phases::passes_each_phase))]
pub fn accepted_models_pass_each_phase()
    ensures { PassesEachPhase }
{}

/// No two components of an accepted model have one name.
#[tactic(auto, using(crate::proofs::Walked::components_differ))]
pub fn accepted_components_differ()
    ensures { ComponentsDiffer }
{}

/// An accepted model has at most 4096 atomic components.
#[tactic(auto, using(crate::proofs::Walked::atomics_fit))]
pub fn accepted_atomics_fit()
    ensures { AtomicsFit }
{}

/// Each link of an accepted model is one that is accepted after those before it.
#[tactic(auto, using(crate::proofs::Walked::links_are_accepted))]
pub fn accepted_links_are_accepted_in_order()
    ensures { LinksAreAccepted }
{}

/// The groups of an accepted model have at most 128 offsets, each near, and all different.
#[tactic(auto, using(crate::proofs::Groups::offsets_are_right))]
pub fn accepted_offsets_are_right()
    ensures { OffsetsAreRight }
{}

/// A group has as many initial values as cells, whatever its rows and files.
#[tactic(auto, using(crate::proofs::Values::values_fit))]
pub fn accepted_groups_have_a_value_for_each_cell()
    ensures { ValuesFit }
{}

/// The groups of an accepted model have at least one cell, and a default delay of at most
/// 99:59:59:999.
#[tactic(auto, using(crate::proofs::Groups::sizes_are_right))]
pub fn accepted_groups_have_right_sizes()
    ensures { SizesAreRight }
{}

/// The groups of an accepted model have at most 8 variables and 3 further ports, with different
/// names and a value for each.
#[tactic(auto, using(crate::proofs::Groups::names_are_right))]
pub fn accepted_groups_have_right_names()
    ensures { NamesAreRight }
{}

/// The groups of an accepted model have a rule set, and each number of a rule set or cell is in
/// range.
#[tactic(auto, using(crate::proofs::GroupSound::numbers_are_right))]
pub fn accepted_groups_have_right_numbers()
    ensures { NumbersAreRight }
{}

/// The groups of an accepted model are sound.
pub fn accepted_groups_are_sound()
    ensures { GroupsAreSound }
{}

/// Every model that is accepted is sound.
#[tactic(auto, using(crate::proofs::Whole::reads_sound_models))]
pub fn accepted_models_are_sound()
    ensures { ReadsSoundModels }
{}
