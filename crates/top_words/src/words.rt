// The settings that the arguments of a command line give.
ghost use Rattle.std.specs.Prelude.{◌≡◌, ◌≢◌, [], IfOk, MatchOption, MatchResult, option_and_then};
ghost use Rattle.clap.specs.Faults.{fault_of};
ghost use Rattle.clap.specs.Simple.{subcommand_of, subcommand_rows_of};
ghost use Rattle.command_spec.specs.ClapCommand.{app};
ghost use Rattle.command_spec.specs.Texts.{texts_met};
ghost use Rattle.command_spec.specs.Settings.{parsed_settings, plain_settings, settings_in, settings_of};
ghost use Rattle.top_words.specs.Views.{bytes_of};

use crate::clap_command::program;
use crate::given::Given;
use crate::options::is_plain;
use crate::settings::settings_in;
use clap::ArgMatches;
use clap::error::ErrorKind;
use command_spec::{Command, Settings};
use std::alloc::{AllocError, Global};

/// The settings that the arguments give: by their plain form, or else as clap reads them. `None` where they name no command
/// that is built, or where a value isn't spelled or ranged as it is to be. The arguments lack the program's name. Those in
/// plain form take no memory.
pub fn read_words(alloc: Global, words: &[String]) -> Result<Option<Settings>, AllocError>
    ensures { MatchResult result (λ settings. settings ≡ settings_of (bytes_of words.now))
        (λ _. plain_settings (bytes_of words.now) ≡ None) }
{
    match plain_settings(words) {
        Some(settings) => Ok(Some(settings)),
        None => parsed_settings(alloc, words),
    }
}

/// The settings of arguments in plain form.
#[tactic(auto, unfolding(command_spec::specs::Settings::plain_settings))]
fn plain_settings(words: &[String]) -> Option<Settings>
    ensures { result ≡ plain_settings (bytes_of words.now) }
{
    let (name, arguments) = words.split_first()?;
    let command = Command::of_name(name)?;
    if !is_plain(command, arguments) {
        return None;
    }
    settings_in(&Given::Plain(command, arguments))
}

/// The settings of arguments as clap reads them.
#[tactic(auto, unfolding(command_spec::specs::Settings::parsed_settings))]
fn parsed_settings(alloc: Global, words: &[String]) -> Result<Option<Settings>, AllocError>
    ensures { IfOk result (λ settings. settings ≡ parsed_settings (bytes_of words.now)) }
{
    let Some(matches) = matches_of(alloc, words)? else {
        return Ok(None);
    };
    Ok(settings_of_matches(&matches))
}

/// What clap finds, where it finds no fault.
fn matches_of<'w>(alloc: Global, words: &'w [String]) -> Result<Option<ArgMatches<'w>>, AllocError>
    ensures { IfOk result (λ found. MatchOption found (fault_of app (bytes_of words.now) ≢ [])
        (λ matches. (fault_of app (bytes_of words.now) ≡ [])
        × (subcommand_rows_of matches ≡ subcommand_of app (bytes_of words.now)))) }
{
    match program(alloc)?.try_get_matches_from(words) {
        Ok(matches) => Ok(Some(matches)),
        Err(error) => match error.kind() {
            ErrorKind::OutOfMemory => Err(AllocError),
            _ => Ok(None),
        },
    }
}

fn settings_of_matches(matches: &ArgMatches<'_>) -> Option<Settings>
    ensures { result ≡ option_and_then settings_in (option_and_then texts_met (subcommand_rows_of matches.now)) }
{
    let (name, found) = matches.subcommand()?;
    settings_in(&Given::Parsed(Command::of_name(name)?, found))
}
