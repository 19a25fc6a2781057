//! One cache set, seen over a flow graph.
//!
//! `SetView` has the fetched blocks of a set, rising, and the local number of the block that each node fetches. Stands on
//! the graphs of `path_model`, the shape of a cache in `cache_geom` and the younger sets of `focus_spec`. The layer above
//! gets these numbers as facts about what the nodes fetch, and whether a path can hit or can miss as facts about its
//! local numbers.
#![tactic(auto)]

mod fetched;
mod laws;
#[cfg(test)]
mod tests;

pub use fetched::{SetView, ViewFault, view};
pub use laws::view_laws;
