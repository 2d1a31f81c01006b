// The lines of a saved state that are of no leaf: the first two, and the last.
ghost use Rattle.std.specs.Prelude.{◌≡◌, ◌+◌, ◌<◌, ◌^◌, length, IfSome};
ghost use Rattle.std.specs.Option.{option_map};
ghost use Rattle.text_forms.specs.StateOf.{read_at};
ghost use Rattle.state_lines.specs.Parts.{behind_text, ended_at, line_in, parts_of, refused_at};

use quantity::{MAX_DELAY, Time};
use source_text::cut::part_before;

/// What stands behind the first line of a text, where that line is this one.
pub fn behind_line<'a>(line: &[u8], text: &'a [u8]) -> Option<&'a [u8]>
    ensures value { option_map (λ behind. parts_of behind.now) result
        ≡ behind_text line.now (parts_of text.now) }
    ensures shorter { IfSome result (λ behind. length behind.now < length text.now) }
{
    let (first, behind) = part_before(b'\n', text)?;
    if first == line { Some(behind) } else { None }
}

/// The time that the first line of a text gives, and what stands behind that line.
pub fn time_line(text: &[u8]) -> Option<(Time, &[u8])>
    ensures value { option_map (λ found. (found.0, parts_of found.1.now)) result
        ≡ line_in read_at (parts_of text.now) }
    ensures shorter { IfSome result (λ found. length found.1.now < length text.now) }
{
    let (line, behind) = part_before(b'\n', text)?;
    let time = time_in(line)?;
    Some((time, behind))
}

/// The time that a line gives, at most 99:59:59:999.
fn time_in(line: &[u8]) -> Option<Time>
    ensures { result ≡ read_at line.now }
{
    let written = line.strip_prefix(b"at ")?;
    let time = Time::read_text(written)?;
    if time.ms() <= MAX_DELAY {
        Some(time)
    } else {
        None
    }
}

/// The number of the line for which a text is refused that has only the line `end`, with this
/// number, if it is refused.
pub fn end_refused(text: &[u8], line: u32) -> Option<u32>
    requires { line + 1 < 2 ^ 32 }
    ensures { ended_at line (parts_of text.now) ≡ refused_at result }
{
    let Some(behind) = behind_line(b"end", text) else {
        return Some(line);
    };
    if behind.is_empty() {
        None
    } else {
        Some(line + 1)
    }
}
