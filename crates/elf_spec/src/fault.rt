//! What is wrong with a file. The program prints `top_words::text_of` of it; the messages here are for callers of the
//! crates.
use thiserror::Error;

/// Why a file isn't read as an executable. Counts and sums are in bytes; an index counts all program headers from 0.
#[derive(Clone, Copy, Debug, PartialEq, Eq, Error)]
pub enum ElfFault {
    /// The file is shorter than what its headers need.
    #[error("the file has {have} bytes, and its headers need {need}")]
    Truncated { need: u64, have: u64 },
    /// The first four bytes aren't ELF's.
    #[error("the file isn't an ELF file")]
    NotElf,
    /// Not a file of class 32.
    #[error("the file isn't of ELF class 32")]
    NotClass32,
    /// Not little endian.
    #[error("the file isn't little endian")]
    NotLittle,
    /// A version other than 1.
    #[error("the file isn't of ELF version 1")]
    BadVersion,
    /// A type other than 2, an executable.
    #[error("the file is of type {kind}, not an executable")]
    NotExecutable { kind: u16 },
    /// A machine other than 243, RISC-V.
    #[error("the file is for machine {machine}, not for RISC-V")]
    NotRiscv { machine: u16 },
    /// Program headers of another size than 32 bytes.
    #[error("the program headers have {size} bytes each, not 32")]
    BadEntrySize { size: u16 },
    /// More than 64 program headers.
    #[error("the file has {count} program headers, more than 64")]
    TooManySegments { count: u16 },
    /// An executable segment that ends after the file's end.
    #[error("segment {index} ends after the end of the file")]
    SegmentOutside { index: u16 },
    /// An executable segment that ends above the highest address.
    #[error("segment {index} ends above the highest address")]
    SegmentWraps { index: u16 },
    /// An executable segment that has an address of an earlier one.
    #[error("segment {index} overlaps an earlier one")]
    SegmentsOverlap { index: u16 },
    /// No executable segment.
    #[error("the file has no executable segment")]
    NoText,
    #[error("out of memory")]
    OutOfMemory,
}
