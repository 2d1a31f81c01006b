// Names and words between blanks.
ghost use Rattle.std.specs.Prelude.{◌≡◌, ℕ, List};
ghost use Rattle.std.specs.List.{list_all, list_any};
ghost use Rattle.std.specs.Str.{bytes_eq};
ghost use Rattle.quantity.specs.Bytes.{has_repeat, is_among, words};
ghost use Rattle.quantity.specs.Names.{is_name};
ghost use Rattle.rule_syntax.specs.Tokens.{is_of_word};
ghost use Rattle.source_text.specs.Shown.{texts};
ghost use Rattle.model_text.specs.Forms as F;

use quantity::name::is_name;

/// Whether each of these is a name.
pub(crate) fn are_names(found: &[&[u8]]) -> bool
    ensures { result ≡ list_all is_name (texts found.now) }
{
    each_is_name(found)
}

fn each_is_name(found: &[&[u8]]) -> bool
    ensures { result ≡ list_all (λ r. is_name r.now) found.now }
{
    found.iter().all(|text| is_name(text))
}

/// Whether this is a word of the rule language: a letter, then letters, digits and `_`, at most 64
/// in all.
fn is_word(text: &[u8]) -> bool
    ensures { result ≡ F.is_rule_word text.now }
{
    match text {
        [] => false,
        [first, rest @ ..] => {
            first.is_ascii_alphabetic() && all_are_of_word(rest) && rest.len() < 64
        }
    }
}

fn all_are_of_word(text: &[u8]) -> bool
    ensures { result ≡ list_all is_of_word text.now }
{
    text.iter().all(|byte| is_of_word(*byte))
}

fn is_of_word(byte: u8) -> bool
    ensures { result ≡ is_of_word byte }
{
    byte.is_ascii_alphanumeric() || byte == b'_'
}

/// Whether these are 1 to 3 different words of the rule language, none of them `out`.
pub(crate) fn are_port_words(found: &[&[u8]]) -> bool
    ensures { (text : List ℕ) → texts found.now ≡ words text → result ≡ F.are_ports text }
{
    are_different_words(3, found) && !is_among(found, b"out")
}

/// Whether these are 1 to `most` different words of the rule language.
pub(crate) fn are_different_words(most: usize, found: &[&[u8]]) -> bool
    ensures { (text : List ℕ) → texts found.now ≡ words text → result ≡ F.are_words most text }
{
    1 <= found.len() && found.len() <= most && all_are_words(found) && !has_repeat(found)
}

fn all_are_words(found: &[&[u8]]) -> bool
    ensures { result ≡ list_all F.is_rule_word (texts found.now) }
{
    each_is_word(found)
}

fn each_is_word(found: &[&[u8]]) -> bool
    ensures { result ≡ list_all (λ r. F.is_rule_word r.now) found.now }
{
    found.iter().all(|text| is_word(text))
}

/// Whether some text stands twice.
// It is asked of at most eight texts.
fn has_repeat(found: &[&[u8]]) -> bool
    ensures { result ≡ has_repeat (texts found.now) }
{
    let Some((first, rest)) = found.split_first() else {
        return false;
    };
    is_among(rest, first) || has_repeat(rest)
}

pub(crate) fn is_among(found: &[&[u8]], text: &[u8]) -> bool
    ensures { result ≡ is_among (texts found.now) text.now }
{
    is_one_of(found, text)
}

fn is_one_of(found: &[&[u8]], text: &[u8]) -> bool
    ensures { result ≡ list_any (λ r. bytes_eq text.now r.now) found.now }
{
    found.iter().any(|other| text == *other)
}
