//! The shape of a cache, and the LRU set of one cache set.
//!
//! `Geometry` is the bytes of a line, the number of sets, and the ways; it tells an address's block and a block's set.
//! `LruSet` is seen as the list of its blocks, the most recently fetched first, at most `ways` of them and no two the
//! same; `touch` does one fetch. It stands on the definitions of `cache_spec` alone, and takes no memory: the layer
//! above gets each answer as a value of those definitions, and the bounds that its arithmetic needs.
#![tactic(auto)]

mod geometry;
mod lru_set;

pub use geometry::Geometry;
pub use lru_set::{LruSet, touch_keeps_sets};
