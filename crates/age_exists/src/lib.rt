//! Exists-hit and exists-miss bounds of the blocks of one cache set, with the paths that attest them.
//!
//! Where the must and may ages of `age_must_may` leave a fetch open, a bound that one path attests can still show
//! that some path hits, or that some path misses (after Touzeau, Maïza, Monniaux and Reineke 2017; the equations in
//! `age_spec` are this project's own). The bounds of one block are the least solution of its equations over a view of
//! `set_view`. `BlockSolver` finds them for one block after another: exists-hit bounds by a work list that begins at
//! the nodes which fetch the block, exists-miss bounds by the solver of `lattice_fix`. The changes of both are read as
//! a trail of `path_trail`, whose last entry of a node moves exactly the bound there. A bound that is moved along the
//! first path to each node alone often shows by itself that these nodes can miss. The layer above gets the bounds of
//! one block and a path for each node, whether first paths attest misses, the bounds of all blocks and a way for each
//! node, and the blocks whose fetches all four systems together don't settle.
#![tactic(auto)]

mod all_blocks;
mod fetchers;
mod first_bounds;
mod first_paths;
mod near;
#[cfg(test)]
mod near_tests;
mod one_block;
mod retracing;
mod solver;
mod system;
#[cfg(test)]
mod tests;
mod unclear_fetches;

pub use all_blocks::{HitBounds, MissBounds, exists_hit, exists_miss};
pub use one_block::BlockBounds;
pub use solver::BlockSolver;
pub use unclear_fetches::unclear;
