//! What is right of the nodes of a graph.
//!
//! Types and two definitions: which verdict is right of a node, over all paths that end in it and all lists that a
//! set may start with; and which line of a report stands at a place, by one verdict for each node. Stands on what
//! fetches can do by `cache_spec`, the paths of `path_model` and the lines of `report_spec`. The layers above find
//! verdicts and lines that are right by these definitions.
#![tactic(auto)]

mod verdict;

pub use verdict::{Kept, NodeVerdict, Ways};
