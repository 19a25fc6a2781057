// The commands as clap's, made from their tables of options.
ghost use Rattle.std.specs.Prelude.{◌≡◌, IfOk, false, fold, map};
ghost use Rattle.clap.specs.Simple.{app_of};
ghost use Rattle.clap.specs.Walk.{rule_of};
ghost use Rattle.clap.specs.declared.builder.command.Command.TheViews.{out-Command};
ghost use Rattle.command_spec.specs.Commands.{kind_of, options_of};
ghost use Rattle.command_spec.specs.ClapCommand.{app, bare, long_of, rule_for, subcommand_for, with_option};

use clap::{Arg, ArgAction};
use command_spec::{Command, CommandOption};
use std::alloc::{AllocError, Global};

/// The program as clap's command, with a subcommand for each command.
pub(crate) fn program<'a>(alloc: Global) -> Result<clap::Command<'a>, AllocError>
    ensures { IfOk result (λ r. app_of r ≡ app) }
{
    let classify = subcommand_for(alloc, Command::Classify)?;
    let graph = subcommand_for(alloc, Command::Graph)?;
    bare(alloc).subcommand(classify)?.subcommand(graph)
}

/// The program's name alone: its arguments lack it, and there is no help and no version among them.
fn bare<'a>(alloc: Global) -> clap::Command<'a>
    ensures { app_of result ≡ bare }
{
    clap::Command::new(alloc, "icache")
        .no_binary_name(true)
        .disable_help_flag(true)
        .disable_help_subcommand(true)
        .disable_version_flag(true)
}

/// A command as clap's subcommand.
fn subcommand_for<'a>(alloc: Global, command: Command) -> Result<clap::Command<'a>, AllocError>
    ensures app { IfOk result (λ r. app_of r ≡ subcommand_for command) }
    ensures local { IfOk result (λ r. (out-Command r).has_globals ≡ false) }
{
    let name: &'a str = command.name();
    let mut subcommand: clap::Command<'a> = clap::Command::new(alloc, name);
    for option in command.options() {
        subcommand = subcommand.arg(argument(alloc, option))?;
    }
    Ok(subcommand)
}

/// An option as clap's argument.
fn argument<'a>(alloc: Global, option: &CommandOption) -> Arg<'a>
    ensures rule { rule_of result ≡ rule_for (kind_of option.now) }
    ensures local { result.global ≡ false }
{
    let action = if option.takes_value() {
        ArgAction::Set
    } else {
        ArgAction::SetTrue
    };
    let name = option.name();
    Arg::new(alloc, name).long(long_name(name)).action(action)
}

/// A name without its two hyphens.
fn long_name(name: &str) -> &str
    ensures { result.now ≡ long_of name.now }
{
    name.strip_prefix("--").unwrap_or(name)
}
