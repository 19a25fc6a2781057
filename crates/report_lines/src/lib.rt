//! What lines make a report.
//!
//! Where each node of an expanded program has a right verdict, the lines that follow one another from its first cursor
//! are a report, and there are such lines: an address has a line by the nodes where it has one by the paths. Stands on
//! the definitions of `node_spec` and `report_spec`, and on the paths of `call_expand`. The layer above gets a report
//! from lines that it found one after another.
#![tactic(auto)]

mod laws;

pub use laws::report_laws;
