/// The fields of a program header that are read, named as in the ELF specification's Elf32_Phdr.
#[derive(Clone, Copy, Debug, PartialEq, Eq)]
pub struct ProgramHeader {
    /// What it describes: 1 (PT_LOAD) for a part of the file that is laid into memory.
    pub p_type: u32,
    /// Where its first byte lies in the file.
    pub p_offset: u32,
    /// The address of its first byte.
    pub p_vaddr: u32,
    /// Its bytes in the file.
    pub p_filesz: u32,
    /// Bit 0 (PF_X) is set where it may be executed.
    pub p_flags: u32,
}
