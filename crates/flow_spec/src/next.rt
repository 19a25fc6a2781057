use crate::Frame;

/// Where control goes from an address of the text. Addresses are in bytes.
#[derive(Clone, Copy, Debug, PartialEq, Eq)]
pub enum Next {
    /// Nowhere: the path ends.
    Ends,
    /// To one place; the same calls stay open.
    Go(u32),
    /// To the next instruction, or to the target of a branch; the same calls stay open.
    Fork(u32, u32),
    /// To the function that a call opens.
    Enter { target: u32, frame: Frame },
    /// To the return address of the newest frame, which is closed.
    Back(u32),
}
