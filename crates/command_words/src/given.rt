//! What the words of a call give: a command, with a value for each of its options but those that are absent.

ghost use Rattle.std.specs.Prelude.{◌≡◌, find, map, option_map};
ghost use Rattle.std.specs.Str.{bytes_eq};
ghost use Rattle.command_words.specs.Given.{flag_of, named, number_of, text_of, value_at};

use crate::words::CommandName;
use std::marker::Model;

/// A text that is borrowed from the words. Contracts see its bytes.
#[derive(Debug, Drop)]
pub struct Word<'a> {
    text: &'a str,
}

impl<'a> Model for Word<'a> {
    ghost use Rattle.std.specs.Prelude.{List, ℕ};

    ghost Value = { List ℕ };

    ghost view = { λ word. word.text.now };
}

impl<'a> Word<'a> {
    /// Returns `text` as a word.
    pub fn new(text: &'a str) -> Word<'a>
        ensures { result ≡ text.entry.now }
    {
        Word { text }
    }

    /// Returns the text.
    pub fn as_str(&self) -> &'a str
        ensures { result.now ≡ self.now }
    {
        self.text
    }
}

/// The value of an option.
#[derive(Debug, Drop)]
pub enum Value<'a> {
    /// A number within the option's range.
    Number(u64),
    /// A text.
    Text(Word<'a>),
    /// Whether a flag is given.
    Flag(bool),
}

/// The name of an option, with its value.
#[derive(Debug, Drop)]
pub(crate) struct OptionValue<'a> {
    pub(crate) name: &'static str,
    pub(crate) value: Value<'a>,
}

/// A command, with a value for each of its options but those that are absent. Contracts see the record `Given` of `specs/Given.antt`.
#[derive(Debug, Drop)]
pub struct Given<'a> {
    command: CommandName,
    values: Vec<OptionValue<'a>>,
}

impl<'a> Model for Given<'a> {
    ghost use Rattle.std.specs.Prelude.{map};
    ghost use Rattle.command_words.specs.Given.{Given as Seen, named};

    ghost Value = { Seen };

    ghost view = { λ given. record { command = given.command; values = map named given.values.items } };
}

impl<'a> Given<'a> {
    /// Returns a command with these values of its options.
    pub(crate) fn new(command: CommandName, values: Vec<OptionValue<'a>>) -> Given<'a>
        ensures { result ≡ record { command = command; values = map named values.entry.items } }
    {
        Given { command, values }
    }

    /// Returns which command it is.
    pub fn command(&self) -> CommandName
        ensures { result ≡ self.now.command }
    {
        self.command
    }

    /// Returns the number that the option `name` has, or None if there is no such option, it is absent, or its value is no number.
    pub fn number(&self, name: &str) -> Option<u64>
        ensures { result ≡ number_of name.now self.now }
    {
        match value_named(&self.values, name) {
            Some(Value::Number(number)) => Some(*number),
            _ => None,
        }
    }

    /// True if the flag `name` is given. False if there is no such flag.
    pub fn flag(&self, name: &str) -> bool
        ensures { result ≡ flag_of name.now self.now }
    {
        match value_named(&self.values, name) {
            Some(Value::Flag(given)) => *given,
            _ => false,
        }
    }

    /// Returns the text that the option `name` has, or None if there is no such option, it is absent, or its value is no text.
    pub fn text(&self, name: &str) -> Option<Word<'a>>
        ensures { result ≡ text_of name.now self.now }
    {
        match value_named(&self.values, name) {
            Some(Value::Text(word)) => Some(Word::new(word.as_str())),
            _ => None,
        }
    }
}

/// Returns the value of the first option that is called `name`.
fn value_named<'v, 'a>(values: &'v [OptionValue<'a>], name: &str) -> Option<&'v Value<'a>>
    ensures { option_map (λ value. value.now) result ≡ value_at name.now (map named values.now) }
{
    match option_named(values, name) {
        Some(option) => Some(&option.value),
        None => None,
    }
}

fn option_named<'v, 'a>(values: &'v [OptionValue<'a>], name: &str) -> Option<&'v OptionValue<'a>>
    ensures { option_map (λ option. option.now) result ≡ find (λ option. bytes_eq option.name.now name.now) values.now }
{
    values.iter().find(|option| option.name == name)
}
