//! Reads the values of the subcommand that `clap` found. Each must have the form of its option, else the words give nothing. An option that
//! may be left out and wasn't given is absent: it adds no value.

ghost use Rattle.std.specs.Prelude.{◌≡◌, find, IfOk, map, option_map};
ghost use Rattle.std.specs.Str.{bytes_eq};
ghost use Rattle.clap.specs.Words.{first_of, found_of, rows_of, subcommand_rows_of};
ghost use Rattle.command_words.specs.Given.{named};
ghost use Rattle.command_words.specs.Table.{command_entry, option_entry};
ghost use Rattle.command_words.specs.Words.{
  command_given as words_command_given,
  given_of as words_given_of,
  is_absent as words_is_absent,
  named_given as words_named_given,
  number_at as number_said,
  number_within as number_said_within,
  option_value,
  option_values,
};

use crate::given::{Given, OptionValue, Value, Word};
use crate::words::{Form, Missing, TableCommand, TableOption};
use clap::ArgMatches;
use std::alloc::{AllocError, Global};

/// Returns the command of the subcommand that `clap` found, with its values. None if it found none, or if a value doesn't have its option's
/// form.
pub(crate) fn given_of<'a>(
    alloc: Global,
    commands: &[TableCommand],
    matches: &ArgMatches<'a>,
) -> Result<Option<Given<'a>>, AllocError>
    ensures { IfOk result (λ given. given ≡ words_given_of (map command_entry commands.now) (subcommand_rows_of matches.now)) }
{
    match matches.subcommand() {
        Some((name, own)) => named_given(alloc, commands, name, own),
        None => Ok(None),
    }
}

/// Returns the command of this name with its values, or None if there is no such command or a value doesn't have its option's form.
fn named_given<'a>(
    alloc: Global,
    commands: &[TableCommand],
    name: &str,
    matches: &ArgMatches<'a>,
) -> Result<Option<Given<'a>>, AllocError>
    ensures { IfOk result (λ given. given ≡ words_named_given (map command_entry commands.now) name.now (rows_of (found_of matches.now))) }
{
    match command_named(commands, name) {
        Some(words) => command_given(alloc, words, matches),
        None => Ok(None),
    }
}

fn command_named<'w>(commands: &'w [TableCommand], name: &str) -> Option<&'w TableCommand>
    ensures { option_map (λ words. words.now) result ≡ find (λ words. bytes_eq words.name.now name.now) commands.now }
{
    commands.iter().find(|words| words.name == name)
}

/// Returns the command with the values of its options that are not absent, or None if a value doesn't have its option's form.
fn command_given<'a>(
    alloc: Global,
    words: &TableCommand,
    matches: &ArgMatches<'a>,
) -> Result<Option<Given<'a>>, AllocError>
    ensures { IfOk result (λ given. given ≡ words_command_given (rows_of (found_of matches.now)) (command_entry words.now)) }
{
    match values_of(alloc, words.options, matches) {
        Ok(Some(values)) => Ok(Some(Given::new(words.command, values))),
        Ok(None) => Ok(None),
        Err(error) => Err(error),
    }
}

/// Returns the value of each option that is not absent, or None if a value doesn't have its option's form.
fn values_of<'a>(
    alloc: Global,
    options: &[TableOption],
    matches: &ArgMatches<'a>,
) -> Result<Option<Vec<OptionValue<'a>>>, AllocError>
    ensures { IfOk result (λ values. option_map (λ values. map named values.items) values
        ≡ option_values (rows_of (found_of matches.now)) (map option_entry options.now)) }
{
    let mut values = Vec::new(alloc);
    for option in options {
        if is_absent(option, matches) {
            continue;
        }
        let Some(value) = value_of(option, matches) else {
            return Ok(None);
        };
        values.push(OptionValue {
            name: option.name,
            value,
        })?;
    }
    Ok(Some(values))
}

/// True if the option is absent: it may be left out, and it has no value.
fn is_absent(option: &TableOption, matches: &ArgMatches) -> bool
    ensures { result ≡ words_is_absent (rows_of (found_of matches.now)) (option_entry option.now) }
{
    match option.missing {
        Missing::Absent => text_at(matches, option.name).is_none(),
        Missing::Refused | Missing::Default(_) => false,
    }
}

/// Returns the value of an option, or None if it doesn't have the option's form.
fn value_of<'a>(option: &TableOption, matches: &ArgMatches<'a>) -> Option<Value<'a>>
    ensures { result ≡ option_value (rows_of (found_of matches.now)) (option_entry option.now) }
{
    match option.form {
        Form::Number { least, most } => {
            let number = number_within(matches, option.name, least, most)?;
            Some(Value::Number(number))
        }
        Form::Text => {
            let text = text_at(matches, option.name)?;
            Some(Value::Text(text))
        }
        Form::Flag => {
            let text = text_at(matches, option.name)?;
            Some(Value::Flag(text.as_str() == "true"))
        }
    }
}

fn text_at<'a>(matches: &ArgMatches<'a>, name: &str) -> Option<Word<'a>>
    ensures { result ≡ first_of name.now (rows_of (found_of matches.now)) }
{
    match matches.get_str(name) {
        Some(text) => Some(Word::new(text)),
        None => None,
    }
}

/// Returns the number that the option `name` has, or None if it is not from `least` to `most`.
fn number_within(matches: &ArgMatches, name: &str, least: u64, most: u64) -> Option<u64>
    ensures { result ≡ number_said_within name.now least most (rows_of (found_of matches.now)) }
{
    match number_at(matches, name) {
        Some(number) if least <= number && number <= most => Some(number),
        _ => None,
    }
}

fn number_at(matches: &ArgMatches, name: &str) -> Option<u64>
    ensures { result ≡ number_said name.now (rows_of (found_of matches.now)) }
{
    matches.get_one::<u64>(name)
}
