/// The instructions that a program is read as.
#[derive(Clone, Copy, Debug, PartialEq, Eq)]
pub enum Isa {
    /// RV32I: words of four bytes each.
    Rv32i,
    /// RV32I with the C extension: instructions of two or four bytes.
    Rv32ic,
}

/// How many bytes an instruction of the C extension's encoding has, as its first parcel of 16 bits says.
#[derive(Clone, Copy, Debug, PartialEq, Eq)]
pub enum Length {
    /// Two bytes: the parcel by itself.
    Two,
    /// Four bytes: the parcel is the lower half of a word.
    Four,
    /// More than four bytes, of which RV32I and the C extension have none.
    Longer,
}
