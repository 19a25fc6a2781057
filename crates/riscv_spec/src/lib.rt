//! The RV32I words and the parcels of the C extension, as far as control flow needs them: a table of kinds for each,
//! and the pairs of an AUIPC and a JALR.
//!
//! The encodings are those of the RISC-V unprivileged manual, and those of MRET and WFI the privileged manual's. Calls,
//! returns and pairs are this project's own reading of the jumps. The formats by which words and parcels are put
//! together, and some whose kinds were worked out by hand, stand beside the tables for laws above them.
#![tactic(auto)]

mod kind;
mod parcel;

pub use kind::{Kind, Link};
pub use parcel::{Isa, Length};
