/// What stands at an address of the text: an instruction, with the number of its bytes.
#[derive(Clone, Copy, Debug, PartialEq, Eq)]
pub enum Instruction {
    /// Four bytes.
    Word(u32),
    /// Two bytes.
    Parcel(u16),
    /// A parcel that begins no instruction: one of more than four bytes, or one of four that its segment cuts in two.
    Cut(u16),
}
