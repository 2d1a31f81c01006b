// Laws of trees whose groups get their values.
ghost use Rattle.model_build.specs.Laws.{GroupsAreMet, GroupsAreAlike, BlanksAreLaid, LinksStay};
ghost use Rattle.model_build.specs.Laws.{LaidModelsAreSound, BoxesAreStanding};

use model_text::building::components_are_made_item_by_item;

/// The groups of the tree of sections are those of the sections of groups, in the order in which
/// they are met.
pub fn groups_are_met()
    ensures { GroupsAreMet }
{
    components_are_made_item_by_item();
}

/// A model has the same groups whatever the settings of its boxes.
#[tactic(auto, using(crate::proofs::Groups::groups_are_alike))]
pub fn groups_are_alike()
    ensures { GroupsAreAlike }
{}

/// Values are laid on blank groups as on others.
#[tactic(auto, using(crate::proofs::Laid::blanks_are_laid))]
pub fn blanks_are_laid()
    ensures { BlanksAreLaid }
{}

/// Where values are laid no port, link or path changes.
#[tactic(auto, using(crate::proofs::Laid::links_stay))]
pub fn links_stay()
    ensures { LinksStay }
{}

/// A model is sound with each values that fit its groups.
#[tactic(auto, using(crate::proofs::Laid::laid_models_are_sound))]
pub fn laid_models_are_sound()
    ensures { LaidModelsAreSound }
{}

/// Where the components of a tree have boxes at their start, so have the leaves of its model.
pub fn boxes_are_standing()
    ensures { BoxesAreStanding }
{}
