//! Report lines and their texts.
//!
//! Stands on `report_spec`, whose types it passes on. `write_line` appends exactly the one text of a valid line, so no
//! report text is made elsewhere; `write_graph_line` does so for the lines of the graph. `read_line` gives a line exactly
//! where the text is that line's text. Texts are unique, and none is a proper prefix of another's.
#![tactic(auto)]

mod fields;
mod laws;
mod read;
mod seen;
#[cfg(test)]
mod tests;
mod write;
mod write_graph;

pub use laws::{each_valid_line_has_a_text, no_text_begins_another, texts_are_unique};
pub use read::read_line;
pub use report_spec::{Choices, GraphLine, Line, Verdict, Way};
pub use write::{address_text, write_line};
pub use write_graph::write_graph_line;
