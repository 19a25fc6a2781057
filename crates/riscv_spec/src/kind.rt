/// A register that calls link by: `x1` (ra) or `x5` (t0), after the RISC-V unprivileged manual's return-address hints.
#[derive(Clone, Copy, Debug, PartialEq, Eq)]
pub enum Link {
    X1,
    X5,
}

/// What a word or a parcel does to the flow of control. Offsets are in bytes from its own address, and even. A parcel is
/// read as the instruction that it stands for: a C.J as a JAL, a C.BEQZ as a branch.
#[derive(Clone, Copy, Debug, PartialEq, Eq)]
pub enum Kind {
    /// Control goes on at the next instruction.
    Plain,
    /// A conditional branch.
    Branch { offset: i32 },
    /// A JAL that doesn't link by `x1` or `x5`.
    Jump { offset: i32 },
    /// A JAL that links by `x1` or `x5`.
    Call { offset: i32, link: Link },
    /// A JALR without offset or result through `x1` or `x5`.
    Return { link: Link },
    /// Another JALR, which leads where a register says.
    Computed,
    /// EBREAK, MRET or WFI, at which a path ends.
    Stop,
    /// No word of the table of words, or the parcel of zeros.
    Illegal,
}
