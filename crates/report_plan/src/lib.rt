//! The lines of a report in order, from one verdict for each node of an expanded program.
//!
//! `Plan` keeps the nodes in order of address; `Plan::place` gives which line stands at a cursor, by address or by number,
//! which nodes its ways come from, and the cursor after it; `Plan::line` gives the line itself. Stands on `call_expand`,
//! `elf_image` and the definitions of `node_spec`. The layer above gets each line as a fact about the nodes' verdicts and
//! ways alone.
#![tactic(auto)]

mod before;
mod copies;
mod layout;
mod line;
mod merge;
mod order;
mod place;
mod plan;
#[cfg(test)]
mod tests;

pub use place::{Ends, Place};
pub use plan::Plan;
