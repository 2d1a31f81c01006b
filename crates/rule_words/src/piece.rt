// The pieces of a rule's text.
ghost use Rattle.std.specs.Prelude.{◌≡◌, ◌<◌, [], ◌∷◌, length, IfSome, MatchOption};
ghost use Rattle.std.specs.List.{prefix_len};
ghost use Rattle.rule_words.specs.TokenSteps.{is_pair, piece_length};
ghost use Rattle.rule_words.specs.Tokens.{is_of_run, is_of_word, pieces};

/// The first piece, which is not empty, and what stands behind it; None exactly where the text is
/// empty.
pub(crate) fn first_piece(text: &[u8]) -> Option<(&[u8], &[u8])>
    ensures pieces { MatchOption result (pieces text.now ≡ [])
        (λ cut. pieces text.now ≡ cut.0.now ∷ pieces cut.1.now) }
    ensures shorter { IfSome result (λ cut. length cut.1.now < length text.now) }
{
    if text.is_empty() {
        return None;
    }
    Some(text.split_at(piece_length(text)))
}

fn piece_length(text: &[u8]) -> usize
    ensures { result ≡ piece_length text.now }
{
    if begins_with_pair(text) {
        2
    } else {
        run_length(text).max(1)
    }
}

/// Whether a mark of two bytes stands at the front.
fn begins_with_pair(text: &[u8]) -> bool
    ensures { result ≡ is_pair text.now }
{
    match text {
        [first, second, ..] => matches!(*first, b'!' | b'<' | b'>' | b':') && *second == b'=',
        _ => false,
    }
}

/// How many bytes at the front are letters, digits, `_` and `.`.
fn run_length(text: &[u8]) -> usize
    ensures { result ≡ prefix_len is_of_run text.now }
{
    text.iter().take_while(|byte| is_of_run(**byte)).count()
}

/// How many bytes at the front are letters, digits and `_`.
pub(crate) fn word_length(text: &[u8]) -> usize
    ensures { result ≡ prefix_len is_of_word text.now }
{
    text.iter().take_while(|byte| is_of_word(**byte)).count()
}

/// Whether a word or a number may have this byte: a letter, a digit, `_` or `.`.
pub(crate) fn is_of_run(byte: u8) -> bool
    ensures { result ≡ is_of_run byte }
{
    is_of_word(byte) || byte == b'.'
}

fn is_of_word(byte: u8) -> bool
    ensures { result ≡ is_of_word byte }
{
    byte.is_ascii_alphanumeric() || byte == b'_'
}
