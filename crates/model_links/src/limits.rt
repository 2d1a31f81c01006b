// The limits of links, and of the inputs and outputs of top.
ghost use Rattle.std.specs.Prelude.{◌≡◌, ◌&&◌, ◌||◌, not, map, length, sum, nat_lt, codes};
ghost use Rattle.std.specs.Prelude.{IfOk};
ghost use Rattle.std.specs.Option.{option_map};
ghost use Rattle.std.specs.Str.{bytes_eq};
ghost use Rattle.quantity.specs.Bytes.{is_empty};
ghost use Rattle.quantity.specs.declared.bounds.TheConstants.{MAX_LINKS, MAX_PORTS};
ghost use Rattle.ma_lines.specs.InCode.{section_of};
ghost use Rattle.model_text.specs.Keyed as K;
ghost use Rattle.model_text.specs.Links as L;
ghost use Rattle.model_text.specs.ModelOf as M;
ghost use Rattle.model_walk.specs.Shown.{refusal_of};
ghost use Rattle.model_walk.specs.Met.{IsWalk, sections_at};
ghost use Rattle.model_walk.specs.ReadValues.{AreWordsUnder};

use ma_lines::{Entry, Section};
use model_text::Kind;
use model_walk::names::items;
use model_walk::{ReadSection, ReadSections, Refused, Walked};
use quantity::{MAX_LINKS, MAX_PORTS, OutOfMemory};
use std::alloc::Global;

/// The most links of a model.
const MOST_LINKS: usize = MAX_LINKS;

/// The refusal, at line 0, of more than `MAX_LINKS` links, or of more than `MAX_PORTS` inputs or
/// outputs of top.
pub fn link_limit_refused(
    alloc: Global,
    sections: &ReadSections<'_>,
    walked: &Walked<'_, '_>,
) -> Result<Option<Refused>, OutOfMemory>
    requires { IsWalk sections.now walked.now }
    ensures { IfOk result (λ why. option_map refusal_of why ≡ M.link_limit_refused sections.now) }
{
    // For the proof: only the clauses speak of it.
    let _sections = sections;
    let top = walked.top.section;
    let has_more_links = has_more_links(&walked.sections);
    let ins = ports(alloc, top, b"in")?;
    let outs = ports(alloc, top, b"out")?;
    if is_past(has_more_links, ins, outs) {
        return Ok(Some(Refused {
            line: 0,
            kind: Kind::TooLarge,
        }));
    }
    Ok(None)
}

fn is_past(has_more_links: bool, ins: usize, outs: usize) -> bool
    ensures { result ≡ (has_more_links || nat_lt MAX_PORTS ins || nat_lt MAX_PORTS outs) }
{
    has_more_links || MAX_PORTS < ins || MAX_PORTS < outs
}

/// How many words stand under a key.
fn ports(alloc: Global, section: &ReadSection<'_>, key: &[u8]) -> Result<usize, OutOfMemory>
    requires { AreWordsUnder key.now }
    ensures { IfOk result (λ n. n ≡ length (K.texts_of key.now section.now)) }
{
    let found = items(alloc, section, key)?;
    Ok(found.len())
}

/// Whether these sections have more than `MAX_LINKS` links.
fn has_more_links(sections: &[&ReadSection<'_>]) -> bool
    ensures { result
        ≡ nat_lt MAX_LINKS (sum (map (λ s. length (L.link_entries s)) (sections_at sections.now))) }
{
    let mut total: usize = 0;
    for section in sections {
        total = total.saturating_add(links_in(section.section()));
        if MOST_LINKS < total {
            return true;
        }
    }
    false
}

/// How many links stand in a section.
fn links_in(section: &Section) -> usize
    ensures { result ≡ length (L.link_entries (section_of section.now)) }
{
    let entries = section.entries.iter();
    entries.filter(|entry| is_link(entry)).count()
}

/// Whether an entry is a link, and not an empty one.
pub(crate) fn is_link(entry: &Entry) -> bool
    ensures { result ≡ (bytes_eq entry.now.key (codes "link") && not (is_empty entry.now.value)) }
{
    let is_empty = entry.value.as_bytes().is_empty();
    (entry.key.as_bytes() == b"link".as_slice()) & !is_empty
}
