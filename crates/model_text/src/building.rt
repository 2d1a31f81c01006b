// Laws of models before their paths are counted and their files are read: what makes a model, part
// by part.
ghost use Rattle.model_text.specs.BuildLaws.{SpacesCanBeHeld, ParametersStandOnce};
ghost use Rattle.model_text.specs.BuildLaws.{TotalsAreWithinLimits, PathsStay, FilesAreLaid};
ghost use Rattle.model_text.specs.BuildLaws.{WalkIsMet, ItemsAreMade, SectionsAreMade};

/// A space of the sizes of each group can be held once the keys and the number of cells pass.
#[tactic(auto, using(crate::proofs::Groups::spaces_can_be_held))]
pub fn spaces_can_be_held()
    ensures { SpacesCanBeHeld }
{}

/// No parameter of an atomic component that may stand once stands again.
#[tactic(auto, using(crate::proofs::Once::parameters_stand_once))]
pub fn parameters_stand_once()
    ensures { ParametersStandOnce }
{}

/// Once all phases up to the limit of links pass, the components are sound and all totals within
/// the limits, with any files.
pub fn totals_are_within_limits()
    ensures { TotalsAreWithinLimits }
{}

/// The initial files change no port, no source of a port and no number of paths.
pub fn files_change_no_path()
    ensures { PathsStay }
{}

/// The tree with initial files is the tree without them, with the values of each group laid on it.
#[tactic(auto, using(crate::proofs::Whole::files_are_laid))]
pub fn files_are_laid()
    ensures { FilesAreLaid }
{}

/// What a component is, item by item, and that the walk of a model that passes all phases up to the
/// limit of links meets right sections and items.
#[tactic(auto, using(crate::proofs::Parts::items_are_made, crate::proofs::Parts::sections_are_made))]
pub fn components_are_made_item_by_item()
    ensures walk { WalkIsMet }
    ensures items { ItemsAreMade }
    ensures sections { SectionsAreMade }
{}
