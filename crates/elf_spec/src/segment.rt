/// An executable segment: a part of the file that is laid into memory and may be executed.
#[derive(Clone, Copy, Debug, PartialEq, Eq)]
pub struct Segment {
    /// The address of its first byte.
    pub at: u32,
    /// Its bytes in the file, above 0.
    pub size: u32,
    /// Where its first byte lies in the file.
    pub offset: u32,
}
