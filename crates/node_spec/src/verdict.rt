use transition_spec::Way;

/// A way that names a path that can hit, and one that names a path that can miss.
#[derive(Debug, Drop)]
pub struct Ways {
    pub hit: Way,
    pub miss: Way,
}

/// What the paths that end in a node can do there, from all that the cache may start with.
#[derive(Debug, Drop)]
pub enum NodeVerdict {
    /// No path can miss.
    Hits,
    /// No path can hit.
    Misses,
    /// Neither of these, with a way of each kind where they are kept.
    Both(Option<Ways>),
}

/// Where the ways of nodes are kept whose paths can do both.
#[derive(Clone, Copy, Debug, PartialEq, Eq)]
pub enum Kept {
    /// At each such node.
    EachNode,
    /// At one such node of each address that has one.
    EachAddress,
}
