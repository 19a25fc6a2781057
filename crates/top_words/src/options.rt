// The options of a command among its arguments: one walk from option to option serves all questions.
ghost use Rattle.std.specs.Prelude.{◌≡◌, ◌≤◌, None, Some, length, option_copied, MatchOption};
ghost use Rattle.command_spec.specs.Plain.{value_of, has_option, is_flag, is_new, is_plain};
ghost use Rattle.command_spec.specs.Commands.{options_of};
ghost use Rattle.top_words.specs.Walk.{after_option};
ghost use Rattle.top_words.specs.Views.{bytes_of};

use command_spec::Command;

/// Whether the arguments after a command are in plain form: names with their values and flags, none of them twice.
pub(crate) fn is_plain(command: Command, arguments: &[String]) -> bool
    ensures { result ≡ is_plain (options_of command) (bytes_of arguments.now) }
{
    let mut left = arguments;
    while let [first, later @ ..] = left {
        let name = first.as_str();
        let Some(rest) = after_option(command, name, later) else {
            return false;
        };
        if !is_new(command, name, rest) {
            return false;
        }
        left = rest;
    }
    true
}

/// The arguments after a name and its value, or after a flag alone. `None` where the value is missing.
fn after_option<'a>(command: Command, first: &str, later: &'a [String]) -> Option<&'a [String]>
    ensures rest { MatchOption result (after_option (options_of command) first.now later.now ≡ None)
        (λ rest. after_option (options_of command) first.now later.now ≡ Some rest.now) }
    ensures shorter { MatchOption result (Unit {0}) (λ rest. length rest.now ≤ length later.now) }
{
    if is_flag(command, first) {
        return Some(later);
    }
    let (_, rest) = later.split_first()?;
    Some(rest)
}

fn is_flag(command: Command, name: &str) -> bool
    ensures { result ≡ is_flag (options_of command) name.now }
{
    command.takes_value(name) == Some(false)
}

/// Whether a name is an option of the command that doesn't come again later.
fn is_new(command: Command, name: &str, later: &[String]) -> bool
    ensures { result ≡ is_new (options_of command) name.now (bytes_of later.now) }
{
    command.takes_value(name).is_some() && !has_option(command, later, name)
}

/// Whether the option stands among the arguments, as a flag or as a name with its value.
pub(crate) fn has_option(command: Command, arguments: &[String], name: &str) -> bool
    ensures { result ≡ has_option (options_of command) name.now (bytes_of arguments.now) }
{
    let mut left = arguments;
    while let [first, later @ ..] = left {
        let found = first.as_str();
        if found == name {
            return true;
        }
        let Some(rest) = after_option(command, found, later) else {
            return false;
        };
        left = rest;
    }
    false
}

/// The value after a name.
pub(crate) fn value_of<'a>(command: Command, arguments: &'a [String], name: &str) -> Option<&'a str>
    ensures { option_copied result ≡ value_of (options_of command) name.now (bytes_of arguments.now) }
{
    let mut left = arguments;
    while let [first, later @ ..] = left {
        let found = first.as_str();
        if found == name && !is_flag(command, found) {
            return Some(later.first()?.as_str());
        }
        left = after_option(command, found, later)?;
    }
    None
}
