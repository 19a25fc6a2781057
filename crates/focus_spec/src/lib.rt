//! Younger sets and warm sets: what a path has fetched of a cache set since its last fetch of a block, or since its
//! start, where the cache may have held the block then.
//!
//! The definitions are over lists of fetches, so that the blocks of a program and their local numbers share them.
//! Stands on the LRU set of `cache_spec` and the paths of `path_model`. Its laws give the layers above that a path can
//! hit exactly where its warm set has fewer blocks than the set has ways, and can miss exactly where its younger set
//! hasn't. What holds of a rising list with one more number stands in proofs/, for the proofs above.
#![tactic(auto)]

mod laws;

pub use laws::{warm_laws, younger_laws};
