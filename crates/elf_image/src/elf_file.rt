ghost use Rattle.std.specs.Prelude.{◌≡◌, true, ◌&&◌, map, IfOk};
ghost use Rattle.elf_spec.specs.Header.{e_entry, header, is_executable, meets, meets_earlier, first_executable};
ghost use Rattle.elf_spec.specs.Image.{fails_where, first_fault, bytes_outside, addresses_wrap, segment_of, in_order, executable_headers};
ghost use Rattle.elf_image.specs.Tests.{identity_tests, machine_tests, table_tests, segment_tests, IsAnswerOf};

use crate::header::Header;
use crate::in_order::put;
use crate::number::u32_at;
use crate::program_header::{end_of, is_executable, meet, segment_of};
use elf_spec::{ElfFault, ProgramHeader, Segment};
use std::alloc::{AllocError, Global};
use std::marker::Model;

/// The bytes of the header.
const HEADER_SIZE: u64 = 52;

/// The bytes of a program header.
const ENTRY_SIZE: u16 = 32;

/// The most program headers that a file may have.
const MOST_ENTRIES: u16 = 64;

/// The first four bytes, 7f 45 4c 46.
const MAGIC: u32 = 0x464c457f;

const CLASS_32: u8 = 1;

const LITTLE_ENDIAN: u8 = 1;

const VERSION: u8 = 1;

const EXECUTABLE: u16 = 2;

const RISCV: u16 = 243;

/// The end of the addresses.
const ADDRESSES: u64 = 1 << 32;

/// A file with the fields of its header.
#[derive(Drop)]
pub(crate) struct ElfFile<'a> {
    bytes: &'a [u8],
    header: Header,
}

impl<'a> Model for ElfFile<'a> {
    ghost use Rattle.std.specs.Prelude.{◌≡◌, ℕ, List};
    ghost use Rattle.elf_image.specs.Tests.{header_of};

    ghost Value = { List ℕ };

    ghost view = { λ f. f.bytes.now };

    ghost invariant = { λ f. f.header ≡ header_of f.bytes.now };
}

impl<'a> ElfFile<'a> {
    pub(crate) fn new(bytes: &'a [u8]) -> ElfFile<'a>
        ensures { result ≡ bytes.now }
    {
        ElfFile {
            bytes,
            header: Header::of(bytes),
        }
    }

    /// The address at which the program begins.
    pub(crate) fn entry(&self) -> u32
        ensures { result ≡ e_entry self.now }
    {
        self.header.e_entry
    }

    /// The tests of what every ELF file has.
    pub(crate) fn check_identity(&self) -> Result<(), ElfFault>
        ensures { IsAnswerOf (first_fault (identity_tests self.now)) result }
    {
        let header = &self.header;
        let have = self.bytes.len() as u64;
        let need = HEADER_SIZE;
        fail_where(have < need, ElfFault::Truncated { need, have })?;
        fail_where(header.magic != MAGIC, ElfFault::NotElf)?;
        fail_where(header.class != CLASS_32, ElfFault::NotClass32)?;
        fail_where(header.encoding != LITTLE_ENDIAN, ElfFault::NotLittle)?;
        let is_current = header.ident_version == VERSION && header.e_version == VERSION as u32;
        fail_where(!is_current, ElfFault::BadVersion)
    }

    /// The tests of the kind of file and of its machine.
    pub(crate) fn check_machine(&self) -> Result<(), ElfFault>
        ensures { IsAnswerOf (first_fault (machine_tests self.now)) result }
    {
        let kind = self.header.e_type;
        let machine = self.header.e_machine;
        fail_where(kind != EXECUTABLE, ElfFault::NotExecutable { kind })?;
        fail_where(machine != RISCV, ElfFault::NotRiscv { machine })
    }

    /// The tests of the table of program headers. The size of its entries and its place count only where it has any.
    pub(crate) fn check_table(&self) -> Result<(), ElfFault>
        ensures { IsAnswerOf (first_fault (table_tests self.now)) result }
    {
        let size = self.header.e_phentsize;
        let count = self.header.e_phnum;
        let have = self.bytes.len() as u64;
        let need = self.header.e_phoff as u64 + ENTRY_SIZE as u64 * count as u64;
        fail_where(
            count != 0 && size != ENTRY_SIZE,
            ElfFault::BadEntrySize { size },
        )?;
        fail_where(count > MOST_ENTRIES, ElfFault::TooManySegments { count })?;
        fail_where(
            count != 0 && have < need,
            ElfFault::Truncated { need, have },
        )
    }

    /// The tests of the executable segments.
    pub(crate) fn check_segments(&self) -> Result<(), ElfFault>
        ensures { IsAnswerOf (first_fault (segment_tests self.now)) result }
    {
        if let Some(index) = self.first_outside() {
            return Err(ElfFault::SegmentOutside { index });
        }
        if let Some(index) = self.first_wrapping() {
            return Err(ElfFault::SegmentWraps { index });
        }
        if let Some(index) = self.first_overlapping() {
            return Err(ElfFault::SegmentsOverlap { index });
        }
        fail_where(self.first_text().is_none(), ElfFault::NoText)
    }

    /// The executable segments in rising order of address.
    pub(crate) fn segments(&self, alloc: Global) -> Result<Vec<Segment>, AllocError>
        ensures { IfOk result (λ segments. segments.items ≡ in_order (map segment_of (executable_headers self.now))) }
    {
        let mut segments = Vec::new(alloc);
        for index in (0..self.header.e_phnum).rev() {
            let header = self.program_header(index);
            if is_executable(&header) {
                put(&mut segments, segment_of(&header))?;
            }
        }
        Ok(segments)
    }

    fn first_outside(&self) -> Option<u16>
        ensures { result ≡ first_executable self.now (bytes_outside self.now) }
    {
        (0..self.header.e_phnum).find(|index| self.is_outside(*index))
    }

    fn first_wrapping(&self) -> Option<u16>
        ensures { result ≡ first_executable self.now (addresses_wrap self.now) }
    {
        (0..self.header.e_phnum).find(|index| self.is_wrapping(*index))
    }

    fn first_overlapping(&self) -> Option<u16>
        ensures { result ≡ first_executable self.now (meets_earlier self.now) }
    {
        (0..self.header.e_phnum).find(|index| self.is_overlapping(*index))
    }

    fn first_text(&self) -> Option<u16>
        ensures { result ≡ first_executable self.now (λ i. true) }
    {
        (0..self.header.e_phnum).find(|index| is_executable(&self.program_header(*index)))
    }

    /// Whether a program header is executable and its bytes end after the file's end.
    fn is_outside(&self, index: u16) -> bool
        ensures { result ≡ (is_executable (header self.now index) && bytes_outside self.now index) }
    {
        let header = self.program_header(index);
        is_executable(&header)
            && (self.bytes.len() as u64) < header.p_offset as u64 + header.p_filesz as u64
    }

    /// Whether a program header is executable and its addresses end above the highest address.
    fn is_wrapping(&self, index: u16) -> bool
        ensures { result ≡ (is_executable (header self.now index) && addresses_wrap self.now index) }
    {
        let header = self.program_header(index);
        is_executable(&header) && ADDRESSES < end_of(&header)
    }

    /// Whether a program header is executable and has an address of an earlier executable one.
    fn is_overlapping(&self, index: u16) -> bool
        ensures { result ≡ (is_executable (header self.now index) && meets_earlier self.now index) }
    {
        is_executable(&self.program_header(index)) && self.meets_earlier(index)
    }

    /// Whether a program header has an address of an earlier executable one.
    fn meets_earlier(&self, index: u16) -> bool
        ensures { result ≡ meets_earlier self.now index }
    {
        let header = self.program_header(index);
        (0..index).any(|earlier| self.is_met(&header, earlier))
    }

    /// Whether the program header with an index is executable and has an address of another.
    fn is_met(&self, other: &ProgramHeader, index: u16) -> bool
        ensures { result ≡ (is_executable (header self.now index) && meets other.now (header self.now index)) }
    {
        let header = self.program_header(index);
        is_executable(&header) && meet(other, &header)
    }

    /// The program header with an index.
    fn program_header(&self, index: u16) -> ProgramHeader
        ensures { result ≡ header self.now index }
    {
        let place = self.header.e_phoff as usize + ENTRY_SIZE as usize * index as usize;
        ProgramHeader {
            p_type: u32_at(self.bytes, place),
            p_offset: u32_at(self.bytes, place + 4),
            p_vaddr: u32_at(self.bytes, place + 8),
            p_filesz: u32_at(self.bytes, place + 16),
            p_flags: u32_at(self.bytes, place + 24),
        }
    }
}

/// The answer of a test that fails where something holds.
fn fail_where(holds: bool, fault: ElfFault) -> Result<(), ElfFault>
    ensures { IsAnswerOf (fails_where holds fault) result }
{
    if holds { Err(fault) } else { Ok(()) }
}
