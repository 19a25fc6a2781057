//! The graph of every accepted program, with calls expanded.
//!
//! Stands on `flow_graph`, `frame_stacks` and `path_model`. `expand` gives all configurations of an accepted program,
//! numbered by layer, address, frames and part, and the graph of their numbers, or the one fault of a refused program,
//! as `flow_spec` defines both. The layer above gets each node's configuration, and `path_laws`: the paths of the graph
//! are the paths of the configurations, member by member and with the same choices.
#![tactic(auto)]

mod expanded;
mod follow;
mod known;
mod laws;
mod point;
mod program;
mod search;

pub use elf_image::Image;
pub use expanded::{Config, Expanded};
pub use flow_spec::{FlowFault, Frame, Isa, Link};
pub use frame_stacks::StackCell;
pub use laws::path_laws;
pub use path_model::{Graph, Node};
pub use search::expand;

#[cfg(test)]
mod tests;
