// What is refused of section after section.
ghost use Rattle.std.specs.Prelude.{◌≡◌, IfOk, if◌then◌else◌};
ghost use Rattle.std.specs.List.{flat_map};
ghost use Rattle.ma_lines.specs.InCode.{section_of};
ghost use Rattle.model_text.specs.Keys as K;
ghost use Rattle.model_walk.specs.LeastOf.{IsLeastOf};
ghost use Rattle.model_walk.specs.Met.{sections_at};
ghost use Rattle.model_walk.specs.ReadValues.{rows_of};

use crate::again::{Once, again, repeated};
use crate::form::off_forms;
use ma_lines::Section;
use model_text::Kind;
use model_text::key::{COMPONENT_KEYS, GROUP_KEYS, Key};
use model_walk::entries::{first_entry, is_group};
use model_walk::least::least;
use model_walk::{ReadSection, Refused};
use quantity::OutOfMemory;
use std::alloc::Global;

/// The least refusal of all these sections.
pub(crate) fn of_sections(
    alloc: Global,
    sections: &[&ReadSection<'_>],
) -> Result<Option<Refused>, OutOfMemory>
    ensures { IfOk result (IsLeastOf (flat_map K.of_section (sections_at sections.now))) }
{
    let mut first = None;
    for section in sections {
        first = least(first, of_section(alloc, section)?);
    }
    Ok(first)
}

/// The least refusal of the keys of one section.
fn of_section(alloc: Global, read: &ReadSection<'_>) -> Result<Option<Refused>, OutOfMemory>
    ensures { IfOk result (IsLeastOf (K.of_section read.now)) }
{
    let section = read.section();
    let is_group = is_group(section);
    let again = again(alloc, Once::Keys(keys_of(is_group)), section)?;
    let inputs = repeated(alloc, read, b"in")?;
    let outputs = repeated(alloc, read, b"out")?;
    let values = of_values(is_group, section, off_forms(read));
    Ok(least(least(least(again, inputs), outputs), values))
}

/// The keys of a group, or of a section of components.
fn keys_of(is_of_group: bool) -> &'static [Key]
    ensures { rows_of result.now ≡ K.keys_of is_of_group }
{
    if is_of_group {
        &GROUP_KEYS
    } else {
        &COMPONENT_KEYS
    }
}

/// The least refusal of values off their form, and in a group of missing keys and of a size that is
/// given twice.
fn of_values(is_of_group: bool, section: &Section, off: Option<Refused>) -> Option<Refused>
    requires { let s = section_of section.now in
        IsLeastOf (K.off_form (K.forms_of s (K.keys_of is_of_group)) s.entries) off }
    ensures { let s = section_of section.now in
        IsLeastOf (if is_of_group then K.of_group s else K.off_form (K.forms s) s.entries) result }
{
    if is_of_group {
        least(least(missing(section), off), double_space(section))
    } else {
        off
    }
}

/// The refusal of a group without a space or without rules.
fn missing(section: &Section) -> Option<Refused>
    ensures { IsLeastOf (K.missing_key (section_of section.now)) result }
{
    if has_space(section) & has_key(section, b"localtransition") {
        return None;
    }
    Some(Refused {
        line: section.line,
        kind: Kind::MissingKey,
    })
}

fn has_space(section: &Section) -> bool
    ensures { result ≡ K.has_space (section_of section.now) }
{
    if has_key(section, b"dim") {
        return true;
    }
    has_key(section, b"height") & has_key(section, b"width")
}

fn has_key(section: &Section, key: &[u8]) -> bool
    ensures { result ≡ K.has_key key.now (section_of section.now) }
{
    first_entry(section, key).is_some()
}

/// The refusal of `dim` beside `height` or `width`.
fn double_space(section: &Section) -> Option<Refused>
    ensures { IsLeastOf (K.double_space (section_of section.now)) result }
{
    if !(has_key(section, b"height") | has_key(section, b"width")) {
        return None;
    }
    let dim = first_entry(section, b"dim")?;
    Some(Refused {
        line: dim.line,
        kind: Kind::BadValue,
    })
}
