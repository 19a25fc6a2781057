/// A line of the graph's text: a configuration, and the numbers of its successors in order.
#[derive(Clone, Copy, Debug, PartialEq, Eq)]
pub struct GraphLine {
    /// The configuration's number.
    pub node: u32,
    /// Its address, in bytes.
    pub at: u32,
    /// How many calls are open.
    pub depth: u32,
    /// The return address of the newest of them.
    pub back: Option<u32>,
    /// The first successor; without it the path ends here.
    pub next: Option<u32>,
    /// The second successor, which a branch has.
    pub taken: Option<u32>,
}
