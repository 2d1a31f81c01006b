// The rule sets of a group.
ghost use Rattle.std.specs.Prelude.{◌≡◌, ◌∷◌, [], map, IfOk, OnOk};
ghost use Rattle.std.specs.List.{flat_map};
ghost use Rattle.rule_syntax.specs.Shown.{names_of};
ghost use Rattle.model_text.specs.Rules as R;
ghost use Rattle.model_rules.specs.Parts as spec;
ghost use Rattle.model_walk.specs.LeastOf.{IsLeastOf};

use crate::rules_in::rules_in;
use ma_lines::Sections;
use model_walk::Refused;
use model_walk::entries::section_named;
use model_walk::least::least;
use quantity::OutOfMemory;
use rule_syntax::Names;
use rule_tree::RuleTree;
use std::alloc::{AllocError, Global};

/// The rules of sections, and the least refusal among them.
#[derive(Drop)]
pub(crate) struct ReadSets {
    pub refused: Option<Refused>,
    pub sets: Vec<Vec<RuleTree>>,
}

/// The rules of the sections of these names, of which those that are absent are left out.
pub(crate) fn sets(
    alloc: Global,
    sections: &Sections,
    named: &[&[u8]],
    names: &Names,
) -> Result<ReadSets, OutOfMemory>
    ensures refused { IfOk result (λ read. IsLeastOf
        (flat_map (R.of_rules (names_of names.now))
        (R.sections_named sections.now (map (λ r. r.now) named.now))) read.refused) }
    ensures sets { IfOk result (λ read. map spec.rules_shown read.sets.items
        ≡ map (R.rules_in (names_of names.now))
        (R.sections_named sections.now (map (λ r. r.now) named.now))) }
{
    let mut read = ReadSets {
        refused: None,
        sets: Vec::with_capacity(alloc, named.len())?,
    };
    for name in named {
        add_set(alloc, sections, name, names, &mut read)?;
    }
    Ok(read)
}

/// Adds the rules of the section of this name, where there is one.
fn add_set(
    alloc: Global,
    sections: &Sections,
    name: &[u8],
    names: &Names,
    read: &mut ReadSets,
) -> Result<(), OutOfMemory>
    ensures { OnOk result (spec.AddsSets (names_of names.now) read.old read.new
        (R.sections_named sections.now (name.now ∷ []))) }
{
    let Some(section) = section_named(sections, name) else {
        return Ok(());
    };
    let rules = rules_in(alloc, section, names)?;
    read.refused = least(read.refused, rules.refused);
    read.sets.push(rules.rules).map_err(AllocError::from)?;
    Ok(())
}
