/// What the cache may hold before the first fetch.
#[derive(Clone, Copy, Debug, PartialEq, Eq)]
pub enum Start {
    /// Nothing, as after a reset that invalidates all lines.
    Empty,
    /// Anything that the cache has room for.
    Any,
}
