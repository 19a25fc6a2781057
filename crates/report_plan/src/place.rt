// Which line stands at a cursor, over numbers of nodes.

/// How the paths to the nodes of a line end.
#[derive(Clone, Copy, Debug, PartialEq, Eq)]
pub enum Ends {
    /// No path can miss.
    AllHit,
    /// No path can hit.
    AllMiss,
    /// Neither of these. The way to a hit comes from the node `hit`, and that to a miss from `miss`.
    Either { hit: u32, miss: u32 },
}

/// What a line says without its ways: in their place are the nodes that they come from.
#[derive(Clone, Copy, Debug, PartialEq, Eq)]
pub enum Place {
    /// An address that has nodes.
    OfAddress {
        at: u32,
        ends: Ends,
    },
    /// A node: its number, its address, how many calls are open, and the return address of the newest.
    OfNode {
        node: u32,
        at: u32,
        depth: u32,
        back: Option<u32>,
        ends: Ends,
    },
    /// Addresses that have a line and no node, from the first to the last.
    OfRange {
        first: u32,
        last: u32,
    },
}
