/// Where control is: an address of the text, the part of the instruction there, and the number of the stack of open
/// calls.
#[derive(Clone, Copy, Debug, PartialEq, Eq)]
pub(crate) struct Point {
    pub(crate) at: u32,
    pub(crate) part: u8,
    pub(crate) stack: u32,
}

/// The points that control goes to from a point, in order.
#[derive(Clone, Copy, Debug, PartialEq, Eq)]
pub(crate) struct Edges {
    pub(crate) first: Option<Point>,
    pub(crate) second: Option<Point>,
}
