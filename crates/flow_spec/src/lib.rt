//! How control flows through an image: configurations, their successors, and which programs are accepted.
//!
//! A configuration is the list of open calls, an address and a part of the instruction there, so that a return leads to
//! its own caller alone and each configuration fetches from one line. Frames, successors, the order of faults and the
//! limit are this project's own; the instructions come from `riscv_spec`. `order_laws` says by addresses, open calls and
//! parts which configuration comes first, and `rv32i_laws` what is simpler without compressed instructions.
#![tactic(auto)]

mod fault;
mod frame;
mod instruction;
mod laws;
mod next;

pub use fault::FlowFault;
pub use frame::Frame;
pub use instruction::Instruction;
pub use laws::{order_laws, rv32i_laws};
pub use next::Next;
pub use riscv_spec::{Isa, Link};
