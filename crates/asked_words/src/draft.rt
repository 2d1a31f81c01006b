// What options ask for, one by one.
ghost use Rattle.std.specs.Prelude.{◌≡◌, IfSome};
ghost use Rattle.std.specs.Option.{option_map};
ghost use Rattle.std.specs.List.{list_any};
ghost use Rattle.std.specs.Str.{bytes_eq};
ghost use Rattle.clap.specs.Words.{rows_of, found_of};
ghost use Rattle.answer_model.specs.Options.{nothing_given, differ_all};
ghost use Rattle.asked_words.specs.Table.{drafted_by, file_at, files_by};
ghost use Rattle.asked_words.specs.Drafts.{text_of_name, draft_of, place_of, bounded_of, field_of, IsBounded};

use crate::table::{Bounded, Field, Opt, Place};
use crate::values::{letters_in, number, seed_in};
use clap::ArgMatches;
use quantity::{MAX_CELLS, MAX_CYCLES, Time};
use text_forms::Letters;

/// What options ask for: a model's file or the size of a made one, 5 to 1000, the last instant, the
/// files, the group that is drawn and its space as words, the letters of the log's lines, how many
/// cycles an instant may have, 1 to 1,000,000, how frames look: 1 to 20 places for a value, at
/// most 5 decimals, and the plane; the seed of an order of service, at most 2,147,483,647; and the
/// file of the state at the end, and of the state that the run goes on from.
#[derive(Clone, Copy)]
pub struct Draft<'a> {
    pub model: Option<&'a str>,
    pub size: Option<u32>,
    pub end: Option<Time>,
    pub events: Option<&'a str>,
    pub log: Option<&'a str>,
    pub out: Option<&'a str>,
    pub drawn: Option<&'a str>,
    pub group: Option<&'a str>,
    pub space: Option<&'a str>,
    pub letters: Letters,
    pub limit: u32,
    pub width: u8,
    pub decimals: u8,
    pub plane: u32,
    pub seed: Option<u32>,
    pub save: Option<&'a str>,
    pub state: Option<&'a str>,
}

impl<'a> Draft<'a> {
    /// What holds of options that are not given.
    pub(crate) fn nothing_given() -> Draft<'a>
        ensures value { draft_of result ≡ nothing_given }
        ensures bounds { IsBounded result }
    {
        Draft {
            model: None,
            size: None,
            end: None,
            events: None,
            log: None,
            out: None,
            drawn: None,
            group: None,
            space: None,
            letters: Letters {
                y: true,
                n: false,
                x: false,
                s: false,
            },
            limit: 10000,
            width: 3,
            decimals: 0,
            plane: 0,
            seed: None,
            save: None,
            state: None,
        }
    }

    /// The draft with this word in a place.
    fn with_word(&self, place: Place, text: &'a str) -> Draft<'a>
        requires bounds { IsBounded self.now }
        ensures value { draft_of result ≡ place_of place text.entry.now (draft_of self.now) }
        ensures bounds { IsBounded result }
    {
        let mut draft = Draft { ..*self };
        match place {
            Place::Model => draft.model = Some(text),
            Place::Events => draft.events = Some(text),
            Place::Log => draft.log = Some(text),
            Place::Out => draft.out = Some(text),
            Place::Drawn => draft.drawn = Some(text),
            Place::Group => draft.group = Some(text),
            Place::Space => draft.space = Some(text),
            Place::Save => draft.save = Some(text),
            Place::State => draft.state = Some(text),
        }
        draft
    }

    /// The draft with a number in its place, where it lies between its bounds.
    fn with_bounded(&self, place: Bounded, text: &'a str) -> Option<Draft<'a>>
        requires bounds { IsBounded self.now }
        ensures value { option_map draft_of result
            ≡ bounded_of place text.entry.now (draft_of self.now) }
        ensures bounds { IfSome result IsBounded }
    {
        let mut draft = Draft { ..*self };
        match place {
            Bounded::Size => draft.size = Some(number(5, 1000, text)?),
            Bounded::Limit => draft.limit = number(1, MAX_CYCLES, text)?,
            Bounded::Width => draft.width = number(1, 20, text)? as u8,
            Bounded::Decimals => draft.decimals = number(0, 5, text)? as u8,
            Bounded::Plane => draft.plane = number(0, MAX_CELLS - 1, text)?,
        }
        Some(draft)
    }

    /// The draft with this value of an option, where it is of its form.
    fn with(&self, field: Field, text: &'a str) -> Option<Draft<'a>>
        requires bounds { IsBounded self.now }
        ensures value { option_map draft_of result
            ≡ field_of field text.entry.now (draft_of self.now) }
        ensures bounds { IfSome result IsBounded }
    {
        match field {
            Field::Word(place) => Some(self.with_word(place, text)),
            Field::Bounded(place) => self.with_bounded(place, text),
            Field::End => Some(Draft {
                end: Some(Time::parse(text.as_bytes())?),
                ..*self
            }),
            Field::Letters => Some(Draft {
                letters: letters_in(text)?,
                ..*self
            }),
            Field::Seed => Some(Draft {
                seed: Some(seed_in(text)?),
                ..*self
            }),
        }
    }
}

/// What the matches of these options ask for, each in its place.
#[tactic(auto, unfolding(crate::specs::Table::drafted_by), using(crate::proofs::Matched::value_is))]
pub(crate) fn drafted_in<'a>(matches: &ArgMatches<'a>, options: &[Opt]) -> Option<Draft<'a>>
    ensures value { option_map draft_of result
        ≡ drafted_by options.now (rows_of (found_of matches.now)) }
    ensures bounds { IfSome result IsBounded }
{
    match options {
        [] => Some(Draft::nothing_given()),
        [option, rest @ ..] => {
            let Some(draft) = drafted_in(matches, rest) else {
                return None;
            };
            match matches.get_str(option.id) {
                None => Some(draft),
                Some(text) => draft.with(option.field, text),
            }
        }
    }
}

/// The file that is named by an option, if it names one.
#[tactic(auto, using(crate::proofs::Matched::value_is))]
fn file_in<'a>(matches: &ArgMatches<'a>, option: &Opt) -> Option<&'a str>
    ensures { text_of_name result ≡ file_at (rows_of (found_of matches.now)) option.now }
{
    if option.is_file {
        matches.get_str(option.id)
    } else {
        None
    }
}

/// Whether the name is that of a file that one of these options names.
fn is_named_among(matches: &ArgMatches<'_>, name: &str, options: &[Opt]) -> bool
    ensures { result ≡ list_any (bytes_eq name.now)
        (files_by options.now (rows_of (found_of matches.now))) }
{
    match options {
        [] => false,
        [option, rest @ ..] => {
            let later = is_named_among(matches, name, rest);
            match file_in(matches, option) {
                None => later,
                Some(other) => (name == other) | later,
            }
        }
    }
}

/// Whether the files that these options name differ.
pub(crate) fn files_differ(matches: &ArgMatches<'_>, options: &[Opt]) -> bool
    ensures { result ≡ differ_all (files_by options.now (rows_of (found_of matches.now))) }
{
    match options {
        [] => true,
        [option, rest @ ..] => {
            let later = files_differ(matches, rest);
            match file_in(matches, option) {
                None => later,
                Some(name) => !is_named_among(matches, name, rest) & later,
            }
        }
    }
}
