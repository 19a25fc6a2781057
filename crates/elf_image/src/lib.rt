//! Executables as their segments, words and parcels.
//!
//! Stands on `elf_spec`. An `Image` is seen as its file's bytes, its executable segments in rising order of address, and
//! its entry; `read` gives exactly the image that `elf_spec` defines, or the answer of the first test that fails.
#![tactic(auto)]

mod elf_file;
mod header;
mod image;
mod in_order;
mod number;
mod program_header;
mod reading;

pub use elf_spec::{ElfFault, Segment};
pub use image::Image;
pub use reading::read;

#[cfg(test)]
mod tests;
