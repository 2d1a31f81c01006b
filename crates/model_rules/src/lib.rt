//! The phase of rules: the rule sets that groups name, read and numbered. What a rule may name is
//! the group's, so a section of rules is read for each group that names it. But where the group
//! before names the same sections and has the same variables, ports, neighbours and number of
//! dimensions, its rule sets are copied. One group is kept for that: the groups of a model mostly
//! follow one pattern, one after another.
//!
//! - `rules` takes the sections and what those of groups say (`PlacedGroup` of `model_walk`), and
//!   gives for each group `GroupRules`: its rule sets, that of `localtransition` first, and the numbers of those that
//!   its zones and ports name; or the least refusal.
//! - Definitions: `model_text/specs/Rules.antt` (`rules_refused`); the sets and their numbers:
//!   `model_walk/specs/Sets.antt`. Each rule is read by `Rule::read` of `rule_syntax`.
#![tactic(auto)]

ghost use Rattle.std.specs.Prelude.{◌≡◌, None, Some, map, IfOk};
ghost use Rattle.model_text.specs.Walk as W;
ghost use Rattle.model_text.specs.Rules as R;
ghost use Rattle.model_walk.specs.Shown.{refusal_of};
ghost use Rattle.model_walk.specs.Placed.{plain_group, placed_of};
ghost use Rattle.model_walk.specs.Sets.{sets_shown, sets_of};

mod copied;
mod group;
mod named;
mod names;
mod rules_in;
mod sets;

use crate::group::rules_of_groups;
use ma_lines::Sections;
use model_walk::{GroupRules, PlacedGroup, Stop};
use std::alloc::Global;

/// The rules of the groups in declared order. Refused is the least refusal of all.
pub fn rules(
    alloc: Global,
    sections: &Sections,
    groups: &[PlacedGroup<'_>],
) -> Result<Vec<GroupRules>, Stop>
    requires { map plain_group groups.now ≡ map placed_of (W.groups sections.now) }
    ensures right { IfOk result (λ rules. R.rules_refused sections.now ≡ None) }
    ensures rules { IfOk result
        (λ r. map sets_shown r.items ≡ map (sets_of sections.now) (W.groups sections.now)) }
    ensures refused { (why : _) → result ≡ Err (Stop.Refused why)
        → R.rules_refused sections.now ≡ Some (refusal_of why) }
{
    let read = rules_of_groups(alloc, sections, groups)?;
    match read.refused {
        Some(why) => Err(Stop::Refused(why)),
        None => Ok(read.rules),
    }
}
