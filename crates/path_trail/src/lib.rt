//! Ways and trails, which name paths of a graph.
//!
//! A `Way` names a path by its steps and choices; a `Trail` keeps paths as entries that each know the entry before. It
//! stands on `transition_spec`, whose `Names` says which path a way names, and on the graphs of `path_model`. The layer
//! above gets the path of an entry by `trace`, and the way that names it by `way_of`, as facts about the entries that
//! lead to it.
#![tactic(auto)]

#[cfg(test)]
mod tests;
mod trail;

pub use trail::{Trail, trace, way_of};
pub use transition_spec::{Choices, Way};
