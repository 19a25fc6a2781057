ghost use Rattle.std.specs.Prelude.{◌≡◌};
ghost use Rattle.elf_image.specs.Tests.{header_of};

use crate::number::{byte_at, u16_at, u32_at};

/// The fields of the ELF header that are read, named as in the ELF specification's Elf32_Ehdr.
#[derive(Clone, Copy)]
pub(crate) struct Header {
    pub(crate) magic: u32,
    pub(crate) class: u8,
    pub(crate) encoding: u8,
    pub(crate) ident_version: u8,
    pub(crate) e_type: u16,
    pub(crate) e_machine: u16,
    pub(crate) e_version: u32,
    pub(crate) e_entry: u32,
    pub(crate) e_phoff: u32,
    pub(crate) e_phentsize: u16,
    pub(crate) e_phnum: u16,
}

impl Header {
    /// The fields of a file's header.
    pub(crate) fn of(bytes: &[u8]) -> Header
        ensures { result ≡ header_of bytes.now }
    {
        Header {
            magic: u32_at(bytes, 0),
            class: byte_at(bytes, 4),
            encoding: byte_at(bytes, 5),
            ident_version: byte_at(bytes, 6),
            e_type: u16_at(bytes, 16),
            e_machine: u16_at(bytes, 18),
            e_version: u32_at(bytes, 20),
            e_entry: u32_at(bytes, 24),
            e_phoff: u32_at(bytes, 28),
            e_phentsize: u16_at(bytes, 42),
            e_phnum: u16_at(bytes, 44),
        }
    }
}
