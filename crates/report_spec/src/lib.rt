//! What a report says and how it is written: verdicts, lines, their texts, and which texts are reports.
//!
//! A report is right where each of its lines has the verdict of all paths of the program that end in what the line
//! speaks of. The lines and their texts are this project's own format.
#![tactic(auto)]

mod graph_line;
mod line;

pub use graph_line::GraphLine;
pub use line::{Line, Verdict};
pub use transition_spec::{Choices, Way};
