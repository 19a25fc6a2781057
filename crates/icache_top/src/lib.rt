//! All that the program does, as one call over ports that are handed in.
//!
//! Stands on the crates below: `top_words` reads the arguments, `byte_port` the file, `elf_image` the executable;
//! `call_expand` expands its calls, `node_verdicts` finds the verdicts, `report_plan` the lines, and `line_sender` sends
//! them. `run` joins them, and its contract is about what it is handed: arguments, a source, and two sinks. `answer_laws`
//! says that the contract leaves one answer.
#![tactic(auto)]

mod graph;
mod laws;
mod outcome;
mod report;
#[cfg(test)]
mod tests;
mod top;

pub use laws::answer_laws;
pub use outcome::{JobRecord, Jobs, NodeWords, Outcome, Place, Places};
pub use top::run;
pub use top_words::Status;
pub use work_share::{Gate, IdleGate};
