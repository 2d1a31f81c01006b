// The forms of the values of keys.
ghost use Rattle.std.specs.Prelude.{◌≡◌, ◌∷◌, [], int_le, pos, if◌then◌else◌};
ghost use Rattle.std.specs.List.{list_all};
ghost use Rattle.quantity.specs.declared.bounds.TheConstants.{MAX_DELAY};
ghost use Rattle.source_text.specs.Shown.{numbers_of};
ghost use Rattle.quantity.specs.Bytes.{words};
ghost use Rattle.rule_tree.specs.Phrases.{looked_up};
ghost use Rattle.std.specs.Option.{option_map};
ghost use Rattle.model_text.specs.declared.kind.Kind.TheVariants.{BadValue};
ghost use Rattle.model_text.specs.Refusals.{refusal};
ghost use Rattle.model_text.specs.Forms as F;
ghost use Rattle.model_text.specs.Keys as K;
ghost use Rattle.model_text.specs.Walk as W;
ghost use Rattle.model_walk.specs.LeastOf.{IsLeastOf};
ghost use Rattle.model_walk.specs.ReadValues.{IsRead, IsReadBy, form_of, form_among};
ghost use Rattle.model_keys.specs.Tables.{are_two_ends};
ghost use Rattle.model_keys.specs.Wanted.{AreWanted};

use crate::names::{are_different_words, are_names, are_port_words};
use crate::wanted::{WantedValues, fits, wanted_values};
use model_text::Kind;
use model_text::key::{COMPONENT_KEYS, Form};
use model_walk::entries::is_group;
use model_walk::least::least;
use model_walk::link::two_ends;
use model_walk::read_section::form_among;
use model_walk::{ReadEntry, ReadSection, Refused};
use quantity::bounds::MAX_DELAY;
use quantity::name::is_name;
use source_text::Tuple;

/// The least refusal of values that are off the form of their key.
pub(crate) fn off_forms(section: &ReadSection<'_>) -> Option<Refused>
    ensures { let s = section.now in let keys = K.keys_of (W.is_group s) in
        IsLeastOf (K.off_form (K.forms_of s keys) s.entries) result }
{
    let is_group = is_group(section.section());
    let values = wanted_values(section);
    let mut first = None;
    for read in section.entries() {
        first = least(first, off_form(section, is_group, &values, read));
    }
    first
}

/// The refusal of one entry, where its value is off its form.
fn off_form(
    section: &ReadSection<'_>,
    is_of_group: bool,
    values: &WantedValues,
    read: &ReadEntry<'_>,
) -> Option<Refused>
    requires values { AreWanted section.now values.now }
    requires read { IsRead section.now.name read.now }
    ensures { let table = K.forms_of section.now (K.keys_of is_of_group) in
        let e = read.now.entry.now in
        IsLeastOf (if K.is_off (looked_up table e.key) e.value
        then refusal e.line BadValue ∷ [] else []) result }
{
    let form = tested_form(is_of_group, read)?;
    let is_right = is_right(section, values, form, read);
    refused_if(!is_right, read.entry.line, Kind::BadValue)
}

/// The form by which the value of an entry is tested: none where the section has no such key.
fn tested_form(is_of_group: bool, read: &ReadEntry<'_>) -> Option<Form>
    requires { read.now.form ≡ form_of read.now.entry.now.key }
    ensures { result ≡ form_among (K.keys_of is_of_group) read.now.entry.now.key }
{
    if is_of_group {
        read.form
    } else {
        form_among(&COMPONENT_KEYS, read.entry.key.as_bytes())
    }
}

/// The refusal at a line, where there is one.
pub(crate) fn refused_if(is_refused: bool, line: u32, kind: Kind) -> Option<Refused>
    ensures { IsLeastOf (if is_refused then refusal line kind ∷ [] else []) result }
{
    is_refused.then_some(Refused { line, kind })
}

/// Whether a value has the form by which it was read.
fn is_right(
    section: &ReadSection<'_>,
    values: &WantedValues,
    form: Form,
    read: &ReadEntry<'_>,
) -> bool
    requires values { AreWanted section.now values.now }
    requires read { IsReadBy section.now.name form read.now.entry.now.value read.now.value }
    ensures { result ≡ K.has_form section.now form read.now.entry.now.value }
{
    // For the proof: only the clauses speak of it.
    let _section = section;
    let text = read.entry.value.as_bytes();
    let value = &read.value;
    match form {
        Form::Any => true,
        Form::Size => is_size(value.number()),
        Form::Sizes => are_sizes(value.tuple()),
        Form::DelayKind => is_either(b"transport", b"inertial", text),
        Form::DelayTime => is_delay_time(value.number()),
        Form::Border => is_either(b"wrapped", b"nowrapped", text),
        Form::Tuples => value.tuples().is_some(),
        Form::Value => value.value().is_some(),
        Form::FileName => !text.is_empty(),
        Form::Name => is_name(text),
        Form::PortRule => value.port_rule().is_some(),
        Form::Variables => are_different_words(8, value.words()),
        Form::VariableValues => fits(values.variables, value),
        Form::Ports => are_port_words(value.words()),
        Form::PortValues => fits(values.ports, value),
        Form::Names => are_names(value.words()),
        Form::Link => are_two_ends(text, value.ends()),
    }
}

fn is_either(a: &[u8], b: &[u8], text: &[u8]) -> bool
    ensures { result ≡ F.is_one_of (a.now ∷ b.now ∷ []) text.now }
{
    text == a || text == b
}

/// Whether there is a number, and it is at least 1.
fn is_size(number: Option<u64>) -> bool
    ensures { result ≡ F.is_positive number }
{
    match number {
        None => false,
        Some(size) => 1 <= size,
    }
}

/// Whether there are numbers, each at least 1.
fn are_sizes(sizes: Option<Tuple>) -> bool
    ensures { result ≡ F.are_sizes (option_map numbers_of sizes) }
{
    match sizes {
        None => false,
        Some(sizes) => are_positive(sizes),
    }
}

fn are_positive(sizes: Tuple) -> bool
    ensures { result ≡ list_all (λ n. int_le (pos 1) n) (numbers_of sizes) }
{
    1 <= sizes.row && 1 <= sizes.column && 1 <= sizes.plane.unwrap_or(1)
}

/// Whether there is a number, and it is at most `MAX_DELAY`: milliseconds up to 99:59:59:999.
fn is_delay_time(number: Option<u64>) -> bool
    ensures { result ≡ F.is_at_most MAX_DELAY number }
{
    match number {
        None => false,
        Some(delay) => delay <= u64::from(MAX_DELAY),
    }
}

/// Whether a link has these two ends, or nothing stands there.
fn are_two_ends(text: &[u8], ends: &[u8]) -> bool
    ensures { result ≡ are_two_ends text.now (words ends.now) }
{
    text.is_empty() || two_ends(ends).is_some()
}
