//! A verdict for each node of a graph.
//!
//! The graph of its runs (`line_blocks`) is made smaller for one part of the cache sets after another
//! (`sparse_graph`), down to single sets. There the ages of the set's blocks (`age_must_may`, `age_exists`) settle what
//! they can, and each block with a fetch that they leave unclear is searched over all paths (`focus_plain`); what was
//! found is carried back. The layer above gets a right verdict for each node of the graph itself, ways where they are
//! asked for, and the blocks that were searched (the same as over the graph itself, by `age_graphs`), or the first set
//! with too many blocks.
#![tactic(auto)]

mod aged;
mod block_jobs;
mod bounds;
mod judged;
mod lift;
mod noting;
mod one_block;
mod one_set;
mod open_fetches;
mod parts;
mod ranges;
mod set_parts;
#[cfg(test)]
mod tests;
mod verdicts;
mod witnesses;

pub use set_view::ViewFault;
pub use verdicts::{Settled, node_verdicts};
