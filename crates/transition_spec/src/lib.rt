//! Systems of steps: paths, layers and the ways that name paths.
//!
//! The definitions are over any states and any step function, so that the configurations of a program and the
//! numbered nodes of a graph share them. Beside them stands `Way`, which names one path by its steps and choices.
#![tactic(auto)]

mod way;

pub use way::{Choices, Way};
