// What words give under the options of a program.
ghost use Rattle.std.specs.Prelude.{◌≡◌, IfOk, IfSome, map, codes};
ghost use Rattle.std.specs.Option.{option_map};
ghost use Rattle.std.specs.String.{string_bytes};
ghost use Rattle.clap.specs.Words.{rows_of, found_of};
ghost use Rattle.answer_model.specs.Options.{built_rows, drawing_rows, draft_in, draft_by};
ghost use Rattle.asked_words.specs.Drafts.{draft_of, IsBounded, MadeDiffer};

use crate::command::{cdpp_matches, drawlog_matches};
use crate::draft::{Draft, drafted_in, files_differ};
use crate::table::{CDPP, DRAWLOG};
use clap::ArgMatches;
use quantity::OutOfMemory;
use std::alloc::Global;

/// What the words of the simulator give, of which the first is its name; None where the command
/// refuses them, a value is not of the form of its option, or two options name one file.
pub(crate) fn cdpp_draft<'a>(
    alloc: Global,
    words: &'a [String],
) -> Result<Option<Draft<'a>>, OutOfMemory>
    ensures value { IfOk result (λ d. option_map draft_of d
        ≡ draft_by (codes "cdpp") built_rows (map string_bytes words.entry.now)) }
    ensures bounds { IfOk result (λ d. IfSome d IsBounded) }
    ensures made { IfOk result (λ d. IfSome d MadeDiffer) }
{
    let Some(matches) = cdpp_matches(alloc, words)? else {
        return Ok(None);
    };
    Ok(cdpp_draft_in(&matches))
}

/// What the words of the drawing program give, likewise.
pub(crate) fn drawlog_draft<'a>(
    alloc: Global,
    words: &'a [String],
) -> Result<Option<Draft<'a>>, OutOfMemory>
    ensures value { IfOk result (λ d. option_map draft_of d
        ≡ draft_by (codes "drawlog") drawing_rows (map string_bytes words.entry.now)) }
    ensures bounds { IfOk result (λ d. IfSome d IsBounded) }
{
    let Some(matches) = drawlog_matches(alloc, words)? else {
        return Ok(None);
    };
    Ok(drawlog_draft_in(&matches))
}

/// What the matches of the simulator give.
fn cdpp_draft_in<'a>(matches: &ArgMatches<'a>) -> Option<Draft<'a>>
    ensures value { option_map draft_of result
        ≡ draft_in built_rows (rows_of (found_of matches.now)) }
    ensures bounds { IfSome result IsBounded }
    ensures made { IfSome result MadeDiffer }
{
    if files_differ(matches, &CDPP) {
        drafted_in(matches, &CDPP)
    } else {
        None
    }
}

/// What the matches of the drawing program give.
fn drawlog_draft_in<'a>(matches: &ArgMatches<'a>) -> Option<Draft<'a>>
    ensures value { option_map draft_of result
        ≡ draft_in drawing_rows (rows_of (found_of matches.now)) }
    ensures bounds { IfSome result IsBounded }
{
    if files_differ(matches, &DRAWLOG) {
        drafted_in(matches, &DRAWLOG)
    } else {
        None
    }
}
