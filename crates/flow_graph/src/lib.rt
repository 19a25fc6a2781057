//! Where control goes from an address of an image, by the instruction there and the newest open call.
//!
//! Stands on `elf_image` and `rv_decode`. `instruction_at` reads what stands at an address, of two or four bytes, and
//! `parts` says in how many parts a cache fetches it. `is_target` tells the places to which a jump, a branch, a call or a
//! return may lead, and `next_of` gives exactly what `flow_spec` defines as the next places, or its fault; whether a
//! called function is open already is left to the layer above, which knows all open calls. Nothing takes memory.
#![tactic(auto)]

mod instruction;
mod next;
mod places;

pub use flow_spec::{FlowFault, Frame, Instruction, Isa, Link, Next};
pub use instruction::{instruction_at, parts};
pub use next::next_of;
pub use places::is_target;

#[cfg(test)]
mod tests;
