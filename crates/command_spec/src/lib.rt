//! What the arguments of a command line ask for: the settings, and the definition of which arguments give them.
//!
//! In plain form they are a command, and then its options in any order: names, each with its value after it, and flags,
//! which have none. What isn't in plain form is read as `clap` reads it. A command's options are one table, from which
//! both readings are made; `Command::options` is that table in code. The laws say that arguments in plain form with right
//! values always give settings, and have command lines that were worked out by hand.
#![tactic(auto)]

mod command;
mod laws;
mod settings;

pub use command::{Command, CommandOption};
pub use laws::{options_laws, plain_laws, worked_lines};
pub use settings::{Ask, GraphAsk, ReportAsk, Settings};
