//! The l-blocks of a graph: runs of fetches of one line of the cache that are entered only at their first.
//!
//! `line_blocks` makes the graph of the runs once for all sets: its paths to a run do there what the paths of the whole
//! graph do at the run's first node, and each other node always hits, as `run_laws` says; `least_laws` says that least
//! solutions over both graphs agree. `way_of` names the path of the whole graph that one of the runs stands for, without
//! making it. A draft of the runs is tested, so nothing rests on how it is made; that runs are as long as they can be
//! isn't proved. Stands on the graphs of `path_model`, the geometries of `cache_geom` and, for one law, the domains of
//! `lattice_fix`; what paths can do is said by `focus_spec`.
#![tactic(auto)]

mod drafting;
mod laws;
mod making;
mod moves;
mod plan;
#[cfg(test)]
mod tests;
mod ways;

pub use laws::{least_laws, run_laws};
pub use making::{LineBlocks, line_blocks};
pub use plan::Run;
pub use ways::way_of;
