//! Flow graphs of numbered nodes, and their paths.
//!
//! A `Graph` is seen as its list of nodes, each of them reached from node 0. Stands on the paths of `transition_spec`,
//! the hits of `cache_spec` and the LRU set of `cache_geom`: the layer above gets the path that some choices name, the
//! choices of a path, and whether its last fetch hits or can hit, each as a fact about those definitions.
#![tactic(auto)]

mod choose;
mod graph;
#[cfg(test)]
mod tests;
mod walk;

pub use cache_spec::Start;
pub use choose::{choice_laws, follow};
pub use graph::{Graph, Node, graph_laws};
pub use walk::{can_hit, choices_of, ends_in_hit};
