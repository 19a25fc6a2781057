// What the arguments give before any value is tested.
ghost use Rattle.std.specs.Prelude.{◌≡◌, option_copied};
ghost use Rattle.command_spec.specs.Texts.{is_set};
ghost use Rattle.top_words.specs.Given.{texts_of};

use crate::options::{has_option, value_of};
use clap::ArgMatches;
use command_spec::Command;

/// A command with its arguments in plain form, or with what clap found for them.
#[derive(Drop)]
pub(crate) enum Given<'a, 'w> {
    Plain(Command, &'a [String]),
    Parsed(Command, &'a ArgMatches<'w>),
}

impl<'a, 'w> Given<'a, 'w> {
    pub(crate) fn command(&self) -> Command
        ensures { result ≡ (texts_of self.now).command }
    {
        match self {
            Given::Plain(command, _) | Given::Parsed(command, _) => *command,
        }
    }

    /// The text of an option's value, where one is given.
    pub(crate) fn value(&self, name: &str) -> Option<&'a str>
        ensures { option_copied result ≡ (texts_of self.now).value name.now }
    {
        match self {
            Given::Plain(command, arguments) => value_of(*command, arguments, name),
            Given::Parsed(_, matches) => matches.get_str(name),
        }
    }

    /// Whether a flag is given.
    pub(crate) fn has(&self, name: &str) -> bool
        ensures { result ≡ (texts_of self.now).has name.now }
    {
        match self {
            Given::Plain(command, arguments) => has_option(*command, arguments, name),
            Given::Parsed(_, matches) => is_set(matches.get_str(name)),
        }
    }
}

/// Whether the value that clap keeps for a flag says that it is given.
fn is_set(value: Option<&str>) -> bool
    ensures { result ≡ is_set (option_copied value.entry) }
{
    match value {
        Some(text) => text == "true",
        None => false,
    }
}
