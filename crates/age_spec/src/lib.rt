//! Ages of cache blocks along the paths of a graph, as definitions, and laws over them.
//!
//! A block's place in a set is its index in the list of the blocks that the set keeps, or the number of ways where it
//! isn't kept. Must and may ages bound it on all paths to a node (Ferdinand and Wilhelm 1999); exists-hit and exists-miss
//! bounds speak of some path (Touzeau, Maïza, Monniaux and Reineke 2017). Each of the four is the least solution of a
//! monotone framework over the nodes of a view of one set. Stands on the LRU rule of `cache_spec`, the views of `set_view`
//! and the frameworks of `lattice_fix`. The layers above get the equations, which fetches they settle, and that ages bound
//! places.
#![tactic(auto)]

mod kind;
mod laws;

pub use kind::Kind;
pub use laws::age_laws;
