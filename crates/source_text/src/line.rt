// A line of a file, without its comment and its outer blanks.
ghost use Rattle.std.specs.Prelude.{◌≡◌, reverse};
ghost use Rattle.quantity.specs.Bytes.{is_blank, without_outer_blanks, without_blanks_before};
ghost use Rattle.source_text.specs.Lines.{text_of_line, without_return};

use quantity::digits::cut_at;

/// The text without the blanks, spaces and tabs, at both ends.
pub fn trimmed(text: &[u8]) -> &[u8]
    ensures { result.now ≡ without_outer_blanks text.now }
{
    without_blanks_behind(without_blanks_before(text))
}

/// The text of a line that has no line feed: without a carriage return at its end, without what
/// stands from the first `%` on, and then without the blanks at both ends.
pub fn text_of_line(line: &[u8]) -> &[u8]
    ensures { result.now ≡ text_of_line line.now }
{
    let (text, _comment) = cut_at(b'%', without_return(line));
    trimmed(text)
}

/// Whether this is a space or a tab.
pub(crate) fn is_blank(byte: u8) -> bool
    ensures { result ≡ is_blank byte }
{
    byte == b' ' || byte == b'\t'
}

/// The text without the blanks at its front.
pub(crate) fn without_blanks_before(text: &[u8]) -> &[u8]
    ensures { result.now ≡ without_blanks_before text.now }
{
    let mut rest = text;
    while let [b' ' | b'\t', behind @ ..] = rest {
        rest = behind;
    }
    rest
}

fn without_blanks_behind(text: &[u8]) -> &[u8]
    ensures { result.now ≡ reverse (without_blanks_before (reverse text.now)) }
{
    let mut front = text;
    while let [before @ .., b' ' | b'\t'] = front {
        front = before;
    }
    front
}

fn without_return(line: &[u8]) -> &[u8]
    ensures { result.now ≡ without_return line.now }
{
    match line {
        [front @ .., b'\r'] => front,
        _ => line,
    }
}
