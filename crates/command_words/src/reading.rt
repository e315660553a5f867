//! The words of a call, read by `clap`.

ghost use Rattle.std.specs.Prelude.{map, string_bytes};
ghost use Rattle.command_words.specs.Table.{command_entry};
ghost use Rattle.command_words.specs.Words.{MatchesSay, Says, StopSays, given_by, given_in};

use crate::given::Given;
use crate::program::program_of;
use crate::table::command_table;
use crate::values::given_of;
use crate::words::TableCommand;
use clap::ArgMatches;
use clap::error::ErrorKind;
use std::alloc::Global;
use thiserror::Error;

/// The text if a value doesn't have its option's form though `clap` accepted it. That never happens, since `clap` tests the forms.
const OUT_OF_FORM: &str = "error: a value is out of its range\n";

/// Why the words give nothing.
#[derive(Debug, Drop, Error)]
pub enum WordsStop {
    /// The words have none of the program's forms, or ask for help or for the version. The text is what `clap` prints then.
    #[error("{0}")]
    Usage(String),
    /// No memory was left.
    #[error("out of memory")]
    OutOfMemory,
}

/// Reads the words of a call by the program's own table. `words` don't include the program's name.
pub fn read_words<'a>(alloc: Global, words: &'a [String]) -> Result<Given<'a>, WordsStop>
    ensures { Says (given_in (map string_bytes words.entry.now)) result }
{
    let Ok(table) = command_table(alloc) else {
        return Err(WordsStop::OutOfMemory);
    };
    read_by(alloc, &table, words)
}

/// Reads the words of a call by `commands`, a table of commands with their options.
fn read_by<'a>(
    alloc: Global,
    commands: &[TableCommand],
    words: &'a [String],
) -> Result<Given<'a>, WordsStop>
    ensures { Says (given_by (map command_entry commands.now) (map string_bytes words.entry.now)) result }
{
    let matches = matches_of(alloc, commands, words)?;
    match given_of(alloc, commands, &matches) {
        Ok(Some(given)) => Ok(given),
        Ok(None) => Err(out_of_form(alloc)),
        Err(_) => Err(WordsStop::OutOfMemory),
    }
}

fn out_of_form(alloc: Global) -> WordsStop {
    match String::from_str(alloc, OUT_OF_FORM) {
        Ok(text) => WordsStop::Usage(text),
        Err(_) => WordsStop::OutOfMemory,
    }
}

/// Returns what `clap` finds in the words: the subcommand, with the values of its options.
fn matches_of<'a>(
    alloc: Global,
    commands: &[TableCommand],
    words: &'a [String],
) -> Result<ArgMatches<'a>, WordsStop>
    ensures { MatchesSay (map command_entry commands.now) (map string_bytes words.entry.now) result }
{
    let Ok(program) = program_of(alloc, commands) else {
        return Err(WordsStop::OutOfMemory);
    };
    match program.try_get_matches_from(words) {
        Ok(matches) => Ok(matches),
        Err(error) => Err(stop_of(alloc, &error)),
    }
}

fn stop_of(alloc: Global, error: &clap::Error) -> WordsStop
    ensures { StopSays error.now result }
{
    match error.kind() {
        ErrorKind::OutOfMemory => WordsStop::OutOfMemory,
        _ => match error.to_string(alloc) {
            Ok(text) => WordsStop::Usage(text),
            Err(_) => WordsStop::OutOfMemory,
        },
    }
}
