ghost use Rattle.std.specs.Prelude.{◌≡◌, ◌+◌};
ghost use Rattle.elf_spec.specs.Header.{is_executable, meets};
ghost use Rattle.elf_spec.specs.Image.{segment_of};

use elf_spec::{ProgramHeader, Segment};

/// What a loaded part of the file has as its type (PT_LOAD).
const LOADED: u32 = 1;

/// Whether it is loaded, executable and has bytes in the file.
pub(crate) fn is_executable(header: &ProgramHeader) -> bool
    ensures { result ≡ is_executable header.now }
{
    header.p_type == LOADED && header.p_flags % 2 == 1 && header.p_filesz != 0
}

/// The address right after its addresses.
pub(crate) fn end_of(header: &ProgramHeader) -> u64
    ensures { result ≡ header.now.p_vaddr + header.now.p_filesz }
{
    header.p_vaddr as u64 + header.p_filesz as u64
}

/// Whether the two have an address in common.
pub(crate) fn meet(header: &ProgramHeader, other: &ProgramHeader) -> bool
    ensures { result ≡ meets header.now other.now }
{
    (header.p_vaddr as u64) < end_of(other) && (other.p_vaddr as u64) < end_of(header)
}

pub(crate) fn segment_of(header: &ProgramHeader) -> Segment
    ensures { result ≡ segment_of header.now }
{
    Segment {
        at: header.p_vaddr,
        size: header.p_filesz,
        offset: header.p_offset,
    }
}
