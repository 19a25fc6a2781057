//! What an ELF32 executable for RISC-V is: its headers, its image, its words and its parcels, as definitions.
//!
//! The layout is that of the ELF specification; which tests a file has to pass, and in which order, is this project's
//! own. The public types are those that the definitions speak of.
#![tactic(auto)]

mod fault;
mod program_header;
mod segment;

pub use fault::ElfFault;
pub use program_header::ProgramHeader;
pub use segment::Segment;
