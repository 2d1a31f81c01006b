// What parameters say, by the forms of their values.
ghost use Rattle.std.specs.Prelude.{◌≡◌, ◌≤◌, ℕ, ◌∷◌, [], map, codes, pos, IfSome, not};
ghost use Rattle.std.specs.List.{find};
ghost use Rattle.std.specs.Option.{is_some, option_copied, option_map};
ghost use Rattle.std.specs.Str.{bytes_eq};
ghost use Rattle.quantity.specs.declared.bounds.TheConstants.{MAX_DELAY};
ghost use Rattle.atomic_face.specs.Parameters.{parameter, is_parameter_off, lines_off_of, setting_of, time_word, period_word, value_word, count_word};
ghost use Rattle.atomic_face.specs.Settings.{least_line};
ghost use Rattle.atomic_face.specs.Words.{no_time, word_of};
ghost use Rattle.atomic_face.specs.DueWords.{word_or_none};
ghost use Rattle.atomic_kinds.specs.Parameters.{word_in};

use atomic_face::params::least;
use atomic_face::{Param, Params};
use quantity::{Time, Value, digits};

/// How the value of a parameter is written.
#[derive(Clone, Copy)]
pub(crate) enum Form {
    Time,
    /// A time above 0.
    Period,
    Value,
    /// 1 to 9 digits, at least 1.
    Count,
}

/// The least line of an entry with this key whose value is off this form.
pub(crate) fn line_off(params: &Params, key: &[u8], form: Form) -> Option<u32>
    ensures { result ≡ least_line (lines_off_of params.now.entries.items
        (parameter key.now (word_in form) (pos 0))) }
{
    let mut first = None;
    for entry in &params.entries {
        if is_off(entry, key, form) {
            first = least(first, Some(entry.line));
        }
    }
    first
}

fn is_off(entry: &Param, key: &[u8], form: Form) -> bool
    ensures { result ≡ is_parameter_off (parameter key.now (word_in form) (pos 0)) entry.now }
{
    entry.key.as_bytes() == key && !is_of_form(form, entry.value.as_bytes())
}

fn is_of_form(form: Form, text: &[u8]) -> bool
    ensures { result ≡ is_some (word_in form text.now) }
{
    match form {
        Form::Time => Time::parse(text).is_some(),
        Form::Period => period(text).is_some(),
        Form::Value => Value::parse(text).is_some(),
        Form::Count => count(text).is_some(),
    }
}

fn period(text: &[u8]) -> Option<Time>
    ensures value { option_map (λ t. pos t) result ≡ period_word text.now }
    ensures bounded { IfSome result (λ t. t ≤ MAX_DELAY) }
{
    let time = Time::parse(text)?;
    if time.ms() == 0 {
        return None;
    }
    Some(time)
}

fn count(text: &[u8]) -> Option<u32>
    ensures { option_map (λ n. pos n) result ≡ count_word text.now }
{
    let number = digits::whole_number(9, text)?;
    if number == 0 {
        return None;
    }
    Some(number as u32)
}

/// The first entry with this key.
fn entry_of<'a>(params: &'a Params, key: &[u8]) -> Option<&'a Param>
    ensures { option_copied result ≡ find (λ e. bytes_eq e.key key.now) params.now.entries.items }
{
    params
        .entries
        .iter()
        .find(|entry| entry.key.as_bytes() == key)
}

/// The time that the parameter of this key gives, or this one where there is none.
pub(crate) fn time_setting(params: &Params, key: &[u8], default: Time) -> Time
    ensures value { pos result ≡ setting_of params.now.entries.items
        (parameter key.now time_word (pos default)) }
    ensures bounded { default ≤ MAX_DELAY → result ≤ MAX_DELAY }
{
    let Some(entry) = entry_of(params, key) else {
        return default;
    };
    Time::parse(entry.value.as_bytes()).unwrap_or(default)
}

/// The time, more than 0 ms, that the parameter of this key gives, or this one where there is none.
pub(crate) fn period_setting(params: &Params, key: &[u8], default: Time) -> Time
    ensures value { pos result ≡ setting_of params.now.entries.items
        (parameter key.now period_word (pos default)) }
    ensures bounded { default ≤ MAX_DELAY → result ≤ MAX_DELAY }
{
    let Some(entry) = entry_of(params, key) else {
        return default;
    };
    period(entry.value.as_bytes()).unwrap_or(default)
}

/// The value that the parameter of this key gives, or this one where there is none.
pub(crate) fn value_setting(params: &Params, key: &[u8], default: Value) -> Value
    ensures { word_of result ≡ setting_of params.now.entries.items
        (parameter key.now value_word (word_of default)) }
{
    let Some(entry) = entry_of(params, key) else {
        return default;
    };
    Value::parse(entry.value.as_bytes()).unwrap_or(default)
}

/// The count that the parameter of this key gives; None where there is none.
pub(crate) fn count_setting(params: &Params, key: &[u8]) -> Option<u32>
    ensures { word_or_none result ≡ setting_of params.now.entries.items
        (parameter key.now count_word no_time) }
{
    count(entry_of(params, key)?.value.as_bytes())
}
