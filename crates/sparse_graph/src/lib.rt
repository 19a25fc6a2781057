//! Sparse evaluation graphs: of a flow graph the nodes that matter to an analysis, and the meetings of paths that they
//! need.
//!
//! A plan says which nodes are kept and which kept node each node leads to; `sparse` tests it and makes the graph of
//! the kept nodes, and `sparse_for` drafts one for a range of cache sets. Stands on the graphs of `path_model`, the shape
//! of a cache in `cache_geom` and, for one law, the domains of `lattice_fix`. The layer above gets that paths of both
//! graphs fetch the same, so that what they can do is the same wherever a cache set's nodes are all kept; the paths of
//! the whole graph for those of the small one; and that least solutions agree at the kept nodes.
#![tactic(auto)]

mod build;
mod drafting;
mod expand;
mod laws;
mod plan;
mod sets;
mod sources;
#[cfg(test)]
mod tests;
mod tree;

pub use build::{SparseGraph, sparse};
pub use drafting::{Draft, draft_of};
pub use expand::expand_path;
pub use laws::{least_laws, sparse_laws};
pub use sets::{keeps_sets, sparse_for};
