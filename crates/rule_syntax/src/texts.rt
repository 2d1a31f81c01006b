// Laws of rules as texts.
ghost use Rattle.rule_words.specs.RuleLaws.{FindsTheGrammar, HasOneOutcome, ReadsOneWay};
ghost use Rattle.rule_words.specs.RuleLaws.{ReadsSoundRules};
ghost use Rattle.rule_syntax.specs.ReadExamples.{TextsAreRead};
ghost use Rattle.rule_syntax.specs.RefusalExamples.{TextsAreRefused};
ghost use Rattle.rule_syntax.specs.TextExamples.{DepthIsBounded, RulesAreRead, TokensAreBounded};

/// Texts of rules and what they are read to, or why they are refused.
pub fn examples()
    ensures { RulesAreRead }
{}

/// Texts and the trees that they are: precedence, grouping, cells, functions, whole rules.
pub fn trees()
    ensures { TextsAreRead }
{}

/// Texts that are refused, for each reason, and which of two reasons is told.
pub fn refusals()
    ensures { TextsAreRefused }
{}

/// At most 64 parentheses are open at once.
pub fn depth_is_bounded()
    ensures { DepthIsBounded }
{}

/// A rule has at most 4096 tokens.
pub fn tokens_are_bounded()
    ensures { TokensAreBounded }
{}

/// The grammar is exact: what the reading of tokens finds is a phrase or a rule of the grammar,
/// and each of the grammar is found.
pub fn the_grammar_is_found()
    ensures { FindsTheGrammar }
{}

/// A list of tokens is at most one phrase and at most one rule, so precedence and grouping are
/// theorems of the grammar.
pub fn tokens_read_one_way()
    ensures { ReadsOneWay }
{}

/// A text has one outcome, a rule or a refusal, and it is the one that the order of tests gives
/// over the grammar alone.
pub fn one_outcome()
    ensures { HasOneOutcome }
{}

/// A rule that is read is sound for the offsets, variables and ports that it was read with.
pub fn read_rules_are_sound()
    ensures { ReadsSoundRules }
{}
