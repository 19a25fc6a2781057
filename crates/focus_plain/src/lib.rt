//! What the paths that end in a node can do there: hits and misses of a block, borne out by ways.
//!
//! A search goes over the paths of a graph, by the younger and the warm sets of one block that they leave, and keeps
//! those between which all others lie. So `judge` says for each node that fetches the block whether its paths can only
//! hit there, can only miss, or both, with a way for each, and `settle` gives those ways beside the least warm and the
//! most younger sets. Stands on the view of a cache set in `set_view`, the sets of `set_list`, the trails of `path_trail`
//! and the families of `focus_values`; the layer above gets facts about what fetches can do (`cache_spec`), over all
//! paths of a graph and all that the cache may start with.
#![tactic(auto)]

mod ends;
mod judging;
mod reach;
mod search;
mod settling;
#[cfg(test)]
mod tests;

pub use judging::{Classification, Judgement, judge};
pub use settling::{Fate, PlainPlace, PlainSettled, settle};
