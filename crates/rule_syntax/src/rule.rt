// Rules from texts.
ghost use Rattle.std.specs.Prelude.{◌≡◌, true, IfOk, IfErr};
ghost use Rattle.std.specs.declared.result.Result.TheVariants.{Ok, Err};
ghost use Rattle.rule_tree.specs.InCode as E;
ghost use Rattle.rule_words.specs.RuleOf.{rule_if_sound, rule_of_text};
ghost use Rattle.rule_syntax.specs.RulesRead.{IsRead, first_refusal};
ghost use Rattle.rule_tree.specs.Extent.{extent_of, is_sound};
ghost use Rattle.rule_words.specs.Shown.{names_of};

use crate::written::{ReadRule, written_rule};
use rule_tree::RuleTree;
use rule_words::names::Names;
use rule_words::refusal::RuleRefusal;
use rule_words::tokens::{is_large, tokens, words_refused};
use std::alloc::Global;

/// The rule language as text.
pub struct Rule;

impl Rule {
    /// The rule that a text in lower-case letters is in a group, or the first refusal that applies:
    /// BadRule where a piece is no token; RandomRefused or UnknownFunction at the first word, not
    /// behind `$` or `~`, that is none of the language; TooLarge; BadRule where the tokens are no
    /// rule, or a port is given twice; NotANeighbour; UnknownVariable; UnknownNeighbourPort;
    /// BadSort. Memory says nothing of the text. The law `one_outcome` says that this is the one
    /// outcome that the grammar gives.
    pub fn read(alloc: Global, text: &[u8], names: &Names) -> Result<RuleTree, RuleRefusal>
        ensures rule { IfOk result (λ tree. rule_of_text (names_of names.now) text.now
            ≡ Ok (E.rule_of tree)) }
        ensures refusal { IfErr result (λ why. ((why ≡ RuleRefusal.Memory) → ⊥)
            → rule_of_text (names_of names.now) text.now ≡ Err why) }
        ensures sound { IfOk result
            (λ tree. is_sound (extent_of (names_of names.now)) (E.rule_of tree) ≡ true) }
    {
        let Some(tokens) = tokens(alloc, text)? else {
            return Err(RuleRefusal::BadRule);
        };
        if let Some(why) = words_refused(&tokens) {
            return Err(why);
        }
        if is_large(&tokens) {
            return Err(RuleRefusal::TooLarge);
        }
        match written_rule(alloc, names, &tokens)? {
            Some(rule) => judged(rule),
            None => Err(RuleRefusal::BadRule),
        }
    }
}

/// The tree of a rule of the grammar, or the first refusal that applies to it.
fn judged(rule: ReadRule) -> Result<RuleTree, RuleRefusal>
    ensures rule { (names : _) (w : _) → IsRead names rule w
        → IfOk result (λ tree. rule_if_sound names w ≡ Ok (E.rule_of tree)) }
    ensures refusal { (names : _) (w : _) → IsRead names rule w
        → IfErr result (λ why. rule_if_sound names w ≡ Err why) }
{
    match refused(&rule) {
        Some(why) => Err(why),
        None => Ok(rule.tree),
    }
}

/// The first refusal that applies to a rule of the grammar.
fn refused(rule: &ReadRule) -> Option<RuleRefusal>
    ensures { result ≡ first_refusal rule.now }
{
    if rule.port_twice {
        Some(RuleRefusal::BadRule)
    } else if rule.lacks.neighbour {
        Some(RuleRefusal::NotANeighbour)
    } else if rule.lacks.variable {
        Some(RuleRefusal::UnknownVariable)
    } else if rule.lacks.port {
        Some(RuleRefusal::UnknownNeighbourPort)
    } else if !rule.right_sorts {
        Some(RuleRefusal::BadSort)
    } else {
        None
    }
}
