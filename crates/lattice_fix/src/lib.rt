//! The least solution of a monotone framework over a flow graph.
//!
//! A `Domain` says how values move along a graph and join; `solve` gives the least value before each node, and the
//! changes that led to it. Stands on the graphs of `path_model` and the steps of `transition_spec`. The layer above gets,
//! for each domain that meets the laws, one least solution on plain data and the replay of its changes.
#![tactic(auto)]

mod change;
mod domain;
mod laws;
mod solver;
#[cfg(test)]
mod tests;
mod waiting;

pub use change::{Change, Solution, SolveFault};
pub use domain::Domain;
pub use laws::solution_laws;
pub use solver::solve;
