//! Stacks of open calls that share their oldest frames.
//!
//! Stands on the frames of `flow_spec`. `Stacks` is seen as its list of cells: each cell puts one frame on a stack with
//! a smaller number, and no two stacks have the same frames, so that equal lists of frames have equal numbers. The layer
//! above gets the frames of a stack as `frames_of`, and each call here as a fact about them.
#![tactic(auto)]

mod numbers;
mod order;
mod stacks;

pub use flow_spec::{Frame, Link};
pub use stacks::{StackCell, Stacks};

#[cfg(test)]
mod tests;
