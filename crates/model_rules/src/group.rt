// The rules of groups, one after another.
ghost use Rattle.std.specs.Prelude.{◌≡◌, ◌∷◌, [], map, IfOk, IfSome, IsTrue, OnOk};
ghost use Rattle.std.specs.Option.{option_map};
ghost use Rattle.source_text.specs.Shown.{texts};
ghost use Rattle.rule_syntax.specs.Shown as syntax;
ghost use Rattle.ma_lines.specs.InCode.{section_of};
ghost use Rattle.model_text.specs.Walk as W;
ghost use Rattle.model_text.specs.Rules as R;
ghost use Rattle.model_tree.specs.Pull.{distinct};
ghost use Rattle.model_walk.specs.Shown.{item_of, refusal_of};
ghost use Rattle.model_walk.specs.Placed.{plain_group, placed_of};
ghost use Rattle.model_walk.specs.Sets.{sets_shown, sets_of};
ghost use Rattle.model_rules.specs.Parts as spec;

use crate::copied::copied_sets;
use crate::named::{absent, rules_named};
use crate::names::{are_same_names, are_same_texts, names_of, number};
use crate::sets::{ReadSets, sets};
use indexmap::IndexSet;
use ma_lines::Sections;
use model_tree::PortRule;
use model_walk::least::least;
use model_walk::{GroupRules, Item, PlacedGroup, PlacedRule, Refused};
use quantity::{Name, OutOfMemory};
use rule_syntax::Names;
use rule_tree::RuleTree;
use std::alloc::{AllocError, Global};

/// The rules of groups, and the least refusal among them. Where there is one, the rules are not
/// whole.
#[derive(Drop)]
pub(crate) struct ReadGroups<'a, 'b> {
    pub refused: Option<Refused>,
    pub rules: Vec<GroupRules>,
    /// What the sets of the last group were read from, where there is a group.
    pub last: Option<LastRead<'a, 'b>>,
}

/// What the rule sets of a group were read from, and the least refusal of them.
#[derive(Drop)]
pub(crate) struct LastRead<'a, 'b> {
    pub named: IndexSet<&'b [u8]>,
    pub names: &'a Names,
    pub refused: Option<Refused>,
}

/// The rules of the groups in declared order.
pub(crate) fn rules_of_groups<'a, 'b>(
    alloc: Global,
    sections: &Sections,
    groups: &'a [PlacedGroup<'b>],
) -> Result<ReadGroups<'a, 'b>, OutOfMemory>
    requires { map plain_group groups.now ≡ map placed_of (W.groups sections.now) }
    ensures refused { IfOk result (λ read. option_map refusal_of read.refused
        ≡ R.rules_refused sections.now) }
    ensures rules { IfOk result (λ read. map sets_shown read.rules.items
        ≡ map (sets_of sections.now) (W.groups sections.now)) }
{
    let mut read = ReadGroups {
        refused: None,
        rules: Vec::with_capacity(alloc, groups.len())?,
        last: None,
    };
    for group in groups {
        add_group(alloc, sections, group, &mut read)?;
    }
    Ok(read)
}

/// Adds the rules of a group, and keeps what its sets were read from.
fn add_group<'a, 'b>(
    alloc: Global,
    sections: &Sections,
    group: &'a PlacedGroup<'b>,
    read: &mut ReadGroups<'a, 'b>,
) -> Result<(), OutOfMemory>
    requires group { spec.IsPlaced group.now }
    requires last { spec.KeepsLast sections.now read.old }
    ensures added { OnOk result (spec.AddsGroups sections.now read.old read.new
        (section_of group.now.section.now ∷ [])) }
    ensures last { OnOk result (spec.KeepsLast sections.now read.new) }
{
    let items = rules_named(alloc, group)?;
    let named = names_of(alloc, &items)?;
    add_named(alloc, sections, group, &items, named, read)
}

/// Adds the rules of a group, which names these.
fn add_named<'a, 'b>(
    alloc: Global,
    sections: &Sections,
    group: &'a PlacedGroup<'b>,
    items: &[Item<'_>],
    named: IndexSet<&'b [u8]>,
    read: &mut ReadGroups<'a, 'b>,
) -> Result<(), OutOfMemory>
    requires group { spec.IsPlaced group.now }
    requires items { map item_of items.now ≡ R.rules_named (section_of group.now.section.now) }
    requires named { texts named.keys ≡ distinct (map (λ i. i.text.now) items.now) }
    requires last { spec.KeepsLast sections.now read.old }
    ensures added { OnOk result (spec.AddsGroups sections.now read.old read.new
        (section_of group.now.section.now ∷ [])) }
    ensures last { OnOk result (spec.KeepsLast sections.now read.new) }
{
    let found = sets_after(alloc, sections, &named, &group.names, read)?;
    let rules = group_rules(alloc, group, &named, found.sets)?;
    read.refused = least(read.refused, least(absent(sections, items), found.refused));
    read.rules.push(rules).map_err(AllocError::from)?;
    read.last = Some(LastRead {
        named,
        names: &group.names,
        refused: found.refused,
    });
    Ok(())
}

/// The rules of the sections of these names: copies of those of the last group, where that names
/// the same sections and its rules may use the same names.
fn sets_after(
    alloc: Global,
    sections: &Sections,
    named: &IndexSet<&[u8]>,
    names: &Names,
    before: &ReadGroups<'_, '_>,
) -> Result<ReadSets, OutOfMemory>
    requires { spec.KeepsLast sections.now before.now }
    ensures { IfOk result (λ read. spec.AreSetsOf sections.now (syntax.names_of names.now)
        (texts named.now.keys) read.refused read.sets.items) }
{
    let Some((refused, last)) = last_alike(named, names, before) else {
        let read = sets(alloc, sections, named.as_slice(), names)?;
        return Ok(read);
    };
    let sets = copied_sets(alloc, last)?;
    Ok(ReadSets { refused, sets })
}

/// The rule sets of the last group and what is refused of them, where they were read from the same.
fn last_alike<'a>(
    named: &IndexSet<&[u8]>,
    names: &Names,
    before: &'a ReadGroups<'_, '_>,
) -> Option<(Option<Refused>, &'a [Vec<RuleTree>])>
    ensures { IfSome result (λ last. spec.AreLikeLast before.now (syntax.names_of names.now)
        (texts named.now.keys) last.0 last.1.now) }
{
    let Some(last) = &before.last else {
        return None;
    };
    let Some(rules) = before.rules.last() else {
        return None;
    };
    if !is_read_from(last, named, names) {
        return None;
    }
    Some((last.refused, &rules.rule_sets))
}

/// Whether it was read from the same.
fn is_read_from(last: &LastRead<'_, '_>, named: &IndexSet<&[u8]>, names: &Names) -> bool
    ensures { IsTrue result → spec.IsReadFrom last.now (syntax.names_of names.now)
        (texts named.now.keys) }
{
    let same_sections = are_same_texts(last.named.as_slice(), named.as_slice());
    same_sections & are_same_names(last.names, names)
}

/// The rules of a group whose sets are read.
fn group_rules(
    alloc: Global,
    group: &PlacedGroup<'_>,
    named: &IndexSet<&[u8]>,
    rule_sets: Vec<Vec<RuleTree>>,
) -> Result<GroupRules, OutOfMemory>
    ensures sets { IfOk result (λ rules. rules.rule_sets ≡ rule_sets) }
    ensures zones { IfOk result (λ rules. rules.zone_rules.items
        ≡ spec.numbers_of_sets (texts named.now.keys) group.now.zone_rules.items) }
    ensures ports { IfOk result (λ rules. rules.port_rules.items
        ≡ map (spec.rules_by_number (texts named.now.keys)) group.now.port_rules.items) }
{
    let zones = group.zone_rules.iter();
    let zone_rules = zones.map(|item| number(named, item.text)).collect(alloc)?;
    let port_rules = port_rules(alloc, &group.port_rules, named)?;
    Ok(GroupRules {
        rule_sets,
        zone_rules,
        port_rules,
    })
}

/// The rules of ports by the numbers of their sets.
#[tactic(auto, using(crate::proofs::Adds::mapped_step))]
fn port_rules(
    alloc: Global,
    rules: &[PlacedRule<'_>],
    names: &IndexSet<&[u8]>,
) -> Result<Vec<PortRule>, OutOfMemory>
    ensures { IfOk result (λ numbered. numbered.items
        ≡ map (spec.rules_by_number (texts names.now.keys)) rules.now) }
{
    let mut numbered = Vec::with_capacity(alloc, rules.len())?;
    for rule in rules {
        let port_rule = port_rule(alloc, rule, names)?;
        numbered.push(port_rule).map_err(AllocError::from)?;
    }
    Ok(numbered)
}

/// That its port is a name is the keys' phase's to say.
fn port_rule(
    alloc: Global,
    rule: &PlacedRule<'_>,
    names: &IndexSet<&[u8]>,
) -> Result<PortRule, OutOfMemory>
    ensures { IfOk result (λ numbered. numbered
        ≡ spec.rules_by_number (texts names.now.keys) rule.now) }
{
    let Ok(port) = Name::parse(alloc, rule.port) else {
        return Err(OutOfMemory);
    };
    Ok(PortRule {
        port,
        cell: rule.cell,
        rules: number(names, rule.rules),
    })
}
