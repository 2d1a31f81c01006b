// The rules of one section, read in a group.
ghost use Rattle.std.specs.Prelude.{◌≡◌, ◌∷◌, [], map, option_to_list, take, drop, codes, IfOk, OnOk};
ghost use Rattle.std.specs.Option.{option_map, option_copied};
ghost use Rattle.std.specs.Result.{result_ok};
ghost use Rattle.std.specs.Str.{bytes_eq};
ghost use Rattle.quantity.specs.declared.bounds.TheConstants.{MAX_RULES};
ghost use Rattle.rule_tree.specs.InCode as E;
ghost use Rattle.rule_syntax.specs.Shown.{names_of};
ghost use Rattle.ma_lines.specs.InCode.{section_of};
ghost use Rattle.model_text.specs.Keyed as K;
ghost use Rattle.model_text.specs.Refusals.{kind_of_rule};
ghost use Rattle.model_text.specs.Rules as R;
ghost use Rattle.model_walk.specs.Shown.{refusal_of};
ghost use Rattle.model_rules.specs.Parts as spec;
ghost use Rattle.model_walk.specs.LeastOf.{IsLeastOf};

use ma_lines::{Entry, Section};
use model_text::Kind;
use model_walk::Refused;
use model_walk::least::least;
use quantity::{MAX_RULES, OutOfMemory};
use rule_syntax::{Names, Rule, RuleRefusal};
use rule_tree::RuleTree;
use std::alloc::{AllocError, Global};

/// The rules that are right, and the least refusal of the others.
#[derive(Drop)]
pub(crate) struct ReadRules {
    pub refused: Option<Refused>,
    pub rules: Vec<RuleTree>,
}

/// The rules of a section.
pub(crate) fn rules_in(
    alloc: Global,
    section: &Section,
    names: &Names,
) -> Result<ReadRules, OutOfMemory>
    ensures refused { IfOk result (λ r. IsLeastOf
        (R.of_rules (names_of names.now) (section_of section.now)) r.refused) }
    ensures rules { IfOk result (λ read. map E.rule_of read.rules.items
        ≡ R.rules_in (names_of names.now) (section_of section.now)) }
{
    let mut read = ReadRules {
        refused: None,
        rules: Vec::with_capacity(alloc, section.entries.len())?,
    };
    for entry in &section.entries {
        add_entry(alloc, entry, names, &mut read)?;
    }
    read.refused = least(read.refused, too_many(section));
    Ok(read)
}

/// Adds the rule of an entry, where it has the key.
fn add_entry(
    alloc: Global,
    entry: &Entry,
    names: &Names,
    read: &mut ReadRules,
) -> Result<(), OutOfMemory>
    ensures { OnOk result (spec.AddsRules (names_of names.now) read.old read.new (entry.now ∷ [])) }
{
    if !is_rule(entry) {
        return Ok(());
    }
    match read_rule(alloc, entry, names)? {
        Ok(rule) => read.rules.push(rule).map_err(AllocError::from)?,
        Err(refused) => read.refused = least(read.refused, Some(refused)),
    }
    Ok(())
}

fn is_rule(entry: &Entry) -> bool
    ensures { result ≡ bytes_eq entry.now.key (codes "rule") }
{
    entry.key.as_bytes() == b"rule".as_slice()
}

/// The rule of an entry, or why it is refused.
fn read_rule(
    alloc: Global,
    entry: &Entry,
    names: &Names,
) -> Result<Result<RuleTree, Refused>, OutOfMemory>
    ensures rule { IfOk result (λ read. option_map E.rule_of (result_ok read)
        ≡ spec.rule_at (names_of names.now) entry.now) }
    ensures refused { IfOk result (λ read. map refusal_of (spec.refusals read)
        ≡ R.rule_refused (names_of names.now) entry.now) }
{
    match Rule::read(alloc, entry.value.as_bytes(), names) {
        Ok(rule) => Ok(Ok(rule)),
        Err(RuleRefusal::Memory) => Err(OutOfMemory),
        Err(why) => Ok(Err(Refused {
            line: entry.line,
            kind: kind_of(why),
        })),
    }
}

/// The kind of refusal of a model that the refusal of a rule is.
fn kind_of(why: RuleRefusal) -> Kind
    ensures { result ≡ kind_of_rule why }
{
    match why {
        RuleRefusal::BadRule | RuleRefusal::Memory => Kind::BadRule,
        RuleRefusal::BadSort => Kind::BadSort,
        RuleRefusal::RandomRefused => Kind::RandomRefused,
        RuleRefusal::UnknownFunction => Kind::UnknownFunction,
        RuleRefusal::NotANeighbour => Kind::NotANeighbour,
        RuleRefusal::UnknownVariable => Kind::UnknownVariable,
        RuleRefusal::UnknownNeighbourPort => Kind::UnknownNeighbourPort,
        RuleRefusal::TooLarge => Kind::TooLarge,
    }
}

/// The most rules of a section.
const MOST_RULES: usize = MAX_RULES;

/// The refusal of the first rule past the most, where there is one.
fn too_many(section: &Section) -> Option<Refused>
    ensures { IsLeastOf (R.too_many (K.entries_of (codes "rule") (section_of section.now))) result }
{
    let Some(entry) = first_past(&section.entries) else {
        return None;
    };
    Some(Refused {
        line: entry.line,
        kind: Kind::TooLarge,
    })
}

fn first_past(entries: &[Entry]) -> Option<&Entry>
    ensures { option_to_list (option_copied result)
        ≡ take 1 (drop MAX_RULES (spec.rule_entries entries.now)) }
{
    entries
        .iter()
        .filter(|entry| is_rule(entry))
        .nth(MOST_RULES)
}
