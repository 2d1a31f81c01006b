// The words of the language.
ghost use Rattle.std.specs.Prelude.{◌≡◌, [], ◌∷◌};
ghost use Rattle.std.specs.List.{list_any};
ghost use Rattle.std.specs.Str.{bytes_eq};
ghost use Rattle.quantity.specs.Bytes.{is_among};
ghost use Rattle.rule_words.specs.RuleOf.{language, random_names, words_refused};
ghost use Rattle.rule_words.specs.TokenSteps.{plain_words};

use crate::refusal::RuleRefusal;
use crate::table::function_in;

/// The refusal of a word that is none of the language.
pub(crate) fn word_refused(word: &[u8]) -> Option<RuleRefusal>
    ensures { result ≡ words_refused (word.now ∷ []) }
{
    if is_of_language(word) {
        None
    } else if is_random(word) {
        Some(RuleRefusal::RandomRefused)
    } else {
        Some(RuleRefusal::UnknownFunction)
    }
}

/// Whether a word is one of the language.
fn is_of_language(word: &[u8]) -> bool
    ensures { result ≡ is_among language word.now }
{
    is_plain(word) || function_in(word).is_some()
}

const PLAIN_WORDS: [&[u8]; 14] = [
    b"imp",
    b"eqv",
    b"or",
    b"xor",
    b"and",
    b"not",
    b"t",
    b"f",
    b"time",
    b"portvalue",
    b"thisport",
    b"truecount",
    b"falsecount",
    b"undefcount",
];

/// Whether a word is one of the language and no function.
fn is_plain(word: &[u8]) -> bool
    ensures { result ≡ is_among plain_words word.now }
{
    is_in(&PLAIN_WORDS, word)
}

const RANDOM_NAMES: [&[u8]; 11] = [
    b"random",
    b"randint",
    b"randsign",
    b"uniform",
    b"normal",
    b"exponential",
    b"poisson",
    b"binomial",
    b"beta",
    b"gamma",
    b"chi",
];

/// Whether a word names a random function.
fn is_random(word: &[u8]) -> bool
    ensures { result ≡ is_among random_names word.now }
{
    is_in(&RANDOM_NAMES, word)
}

fn is_in(words: &[&[u8]], word: &[u8]) -> bool
    ensures { result ≡ list_any (λ w. bytes_eq word.now w.now) words.now }
{
    words.iter().any(|w| word == *w)
}
