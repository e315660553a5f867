//! Builds the program as `clap` knows it: with a subcommand for each command of a table. `reading` parses words by it.

ghost use Rattle.std.specs.Prelude.{◌≡◌, false, IfOk, map};
ghost use Rattle.clap.specs.Words.{app_of, new_app, rule_of};
ghost use Rattle.clap.specs.declared.builder.command.Command.TheViews.{out-Command};
ghost use Rattle.command_words.specs.Table.{command_entry, option_entry};
ghost use Rattle.command_words.specs.Program.{
  command_app,
  form_action,
  form_parser,
  option_rule,
  program_alone as words_of_program_alone,
  program_app,
};

use crate::help::HELP;
use crate::version::VERSION;
use crate::words::{Form, Missing, TableCommand, TableOption};
use clap::builder::ValueParser;
use clap::{Arg, ArgAction, Command};
use std::alloc::{AllocError, Global};

/// Returns the program with a subcommand for each command.
pub(crate) fn program_of<'a>(
    alloc: Global,
    commands: &[TableCommand],
) -> Result<Command<'a>, AllocError>
    ensures { IfOk result (λ program. app_of program ≡ program_app (map command_entry commands.now)) }
{
    let mut program = program_alone(alloc)?;
    for words in commands {
        program = program.subcommand(command_of(alloc, words)?)?;
    }
    Ok(program)
}

fn program_alone<'a>(alloc: Global) -> Result<Command<'a>, AllocError>
    ensures { IfOk result (λ program. app_of program ≡ words_of_program_alone) }
{
    Command::new(alloc, "sortition")
        .version(VERSION)
        .override_help(HELP)
        .no_binary_name(true)
        .subcommand_required(true)
        .bin_name("sortition")
}

/// Returns the subcommand of a command, with its options.
fn command_of<'a>(alloc: Global, words: &TableCommand) -> Result<Command<'a>, AllocError>
    ensures { IfOk result (λ command. (app_of command ≡ command_app (command_entry words.now)) × ((out-Command command).has_globals ≡ false)) }
{
    let mut command = command_alone(alloc, words);
    let options = words.options;
    for option in options {
        command = command.arg(option_of(alloc, option))?;
    }
    Ok(command)
}

fn command_alone<'a>(alloc: Global, words: &TableCommand) -> Command<'a>
    ensures app { app_of result ≡ new_app words.now.name.now }
    ensures local { (out-Command result).has_globals ≡ false }
{
    Command::new(alloc, words.name)
        .about(words.help)
        .after_help(words.example)
}

fn option_of<'a>(alloc: Global, words: &TableOption) -> Arg<'a>
    ensures rule { rule_of result ≡ option_rule (option_entry words.now) }
    ensures local { result.global ≡ false }
{
    let option = Arg::new(alloc, words.name)
        .long(words.name)
        .help(words.help)
        .action(action_of(words.form))
        .value_parser(parser_of(words.form));
    match words.missing {
        Missing::Refused => option.required(true),
        Missing::Absent => option,
        Missing::Default(text) => option.default_value(text),
    }
}

fn parser_of<'a>(form: Form) -> ValueParser<'a>
    ensures { result ≡ form_parser form }
{
    match form {
        Form::Number { least, most } => ValueParser::unsigned(least, most),
        Form::Text => ValueParser::string(),
        Form::Flag => ValueParser::bool(),
    }
}

fn action_of(form: Form) -> ArgAction
    ensures { result ≡ form_action form }
{
    match form {
        Form::Number { .. } | Form::Text => ArgAction::Set,
        Form::Flag => ArgAction::SetTrue,
    }
}
