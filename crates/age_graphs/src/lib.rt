//! That ages leave the same blocks unclear over a graph and over the smaller graphs that stand for it.
//!
//! Where a sparse graph keeps each node that fetches of a set, a kept node has the same must and may ages, and the same
//! exists-hit and exists-miss bounds, as in the whole graph; and in the graph of the runs a run has those of its first
//! node. So the jobs, the blocks with an unclear fetch, are the same. All of it is about the definitions alone. Stands
//! on the four systems of `age_spec`, and on what `sparse_graph` and `line_blocks` prove of least solutions over both
//! graphs. The layer above gets that it may look for jobs on smaller graphs.
#![tactic(auto)]

mod laws;

pub use laws::{job_laws, number_laws};
