//! What an instruction cache with least-recently-used replacement does, as definitions, and laws over them.
//!
//! The LRU set and its fetch, the lists that a set may start with, the contents of a set after some fetches, which
//! fetches can hit and which can miss, and the verdict of a set of paths. They speak of the addresses that a path
//! fetches, so that graphs and configurations share them. Stands on std alone. Its laws give the layers above one list
//! to start with in place of all: whether some fetches can miss, or can hit, is whether they do from that one.
#![tactic(auto)]

mod laws;
mod start;

pub use laws::start_laws;
pub use start::Start;
