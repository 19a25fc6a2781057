//! What the program's arguments ask for, and how a run ends.
//!
//! Stands on `command_spec`, whose settings `read_words` gives exactly, and on the kit's `clap`, which reads what isn't in
//! plain form. `Status` has a code for the process and a text for standard error, which `text_of` makes without memory.
#![tactic(auto)]

mod clap_command;
mod fault_text;
mod given;
mod number;
mod options;
mod settings;
mod short_text;
mod status;
#[cfg(test)]
mod tests;
mod words;

pub use command_spec::Settings;
pub use fault_text::{explain, text_of};
pub use short_text::ShortText;
pub use status::Status;
pub use words::read_words;
