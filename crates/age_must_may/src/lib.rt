//! Must and may ages of the blocks of one cache set, before each node of a graph.
//!
//! `must` and `may` are the least solutions of the age equations of `age_spec`, found by the solver of `lattice_fix` over a
//! view of `set_view`. The layer above gets these solutions, and bounds of the places of blocks: on each path, from each
//! list that the set may start with, a block's place is at most its must age and at least its may age. `Ages` keeps a byte
//! for each local block and node.
#![tactic(auto)]

mod ages;
mod step;
mod system;
#[cfg(test)]
mod tests;

pub use ages::{Ages, may, must};
