// The commands, each with options that take one value.
ghost use Rattle.std.specs.Prelude.{◌≡◌, true, IfOk, IfSome, Some, map, is_some, codes};
ghost use Rattle.std.specs.String.{string_bytes};
ghost use Rattle.clap.specs.Words.{app_of, new_rule, with_rule, rows_of};
ghost use Rattle.clap.specs.Words.{found_of, matches_of, is_simple, is_simple_and_free};
ghost use Rattle.answer_model.specs.Options.{is_taken, command_by, built_rows, drawing_rows};
ghost use Rattle.asked_words.specs.Table.{with_named};

use crate::table::{CDPP, DRAWLOG, Opt};
use clap::error::ErrorKind;
use clap::{Arg, ArgMatches, Command};
use quantity::OutOfMemory;
use std::alloc::{AllocError, Global};

// The command with one more option, which takes a value.
fn with_option<'a>(
    command: Command<'a>,
    alloc: Global,
    id: &'a str,
    letter: char,
) -> Result<Command<'a>, AllocError>
    ensures { IfOk result (λ c. app_of c
        ≡ with_rule (app_of command.entry)
        (record (new_rule id.entry.now) { short = Some letter })) }
{
    command.arg(Arg::new(alloc, id).short(letter))
}

// The command with these options more.
fn with_options<'a>(
    command: Command<'a>,
    alloc: Global,
    options: &[Opt],
) -> Result<Command<'a>, AllocError>
    ensures { IfOk result (λ c. app_of c ≡ with_named (app_of command.entry) options.now) }
{
    let mut command = command;
    for option in options {
        command = with_option(command, alloc, option.id, option.letter)?;
    }
    Ok(command)
}

fn cdpp_command<'a>(alloc: Global) -> Result<Command<'a>, AllocError>
    ensures { IfOk result (λ c. app_of c ≡ command_by (codes "cdpp") built_rows) }
{
    with_options(Command::new(alloc, "cdpp"), alloc, &CDPP)
}

fn drawlog_command<'a>(alloc: Global) -> Result<Command<'a>, AllocError>
    ensures { IfOk result (λ c. app_of c ≡ command_by (codes "drawlog") drawing_rows) }
{
    with_options(Command::new(alloc, "drawlog"), alloc, &DRAWLOG)
}

// The matches of the words, where the command takes them.
fn matches_in<'a>(
    command: Command<'a>,
    words: &'a [String],
) -> Result<Option<ArgMatches<'a>>, OutOfMemory>
    requires simple { is_simple (app_of command) ≡ true }
    requires free { is_simple_and_free (app_of command) ≡ true }
    ensures taken { IfOk result (λ m. is_some m
        ≡ is_taken (app_of command.entry) (map string_bytes words.entry.now)) }
    ensures rows { IfOk result (λ m. IfSome m (λ m. rows_of (found_of m)
        ≡ matches_of (app_of command.entry) (map string_bytes words.entry.now))) }
{
    match command.try_get_matches_from(words) {
        Ok(matches) => Ok(Some(matches)),
        Err(error) => match error.kind() {
            ErrorKind::OutOfMemory => Err(OutOfMemory),
            _ => Ok(None),
        },
    }
}

// The matches of the words of the simulator, where its command takes them.
pub(crate) fn cdpp_matches<'a>(
    alloc: Global,
    words: &'a [String],
) -> Result<Option<ArgMatches<'a>>, OutOfMemory>
    ensures taken { IfOk result (λ m. is_some m
        ≡ is_taken (command_by (codes "cdpp") built_rows) (map string_bytes words.entry.now)) }
    ensures rows { IfOk result (λ m. IfSome m
        (λ m. rows_of (found_of m)
        ≡ matches_of (command_by (codes "cdpp") built_rows) (map string_bytes words.entry.now))) }
{
    let Ok(command) = cdpp_command(alloc) else {
        return Err(OutOfMemory);
    };
    matches_in(command, words)
}

// The matches of the words of the drawing program, where its command takes them.
pub(crate) fn drawlog_matches<'a>(
    alloc: Global,
    words: &'a [String],
) -> Result<Option<ArgMatches<'a>>, OutOfMemory>
    ensures taken { IfOk result (λ m. is_some m
        ≡ is_taken (command_by (codes "drawlog") drawing_rows) (map string_bytes words.entry.now)) }
    ensures rows { IfOk result (λ m. IfSome m
        (λ m. rows_of (found_of m)
        ≡ matches_of (command_by (codes "drawlog") drawing_rows) (map string_bytes words.entry.now))) }
{
    let Ok(command) = drawlog_command(alloc) else {
        return Err(OutOfMemory);
    };
    matches_in(command, words)
}
