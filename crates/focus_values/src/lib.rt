//! The least warm sets and the most younger sets of a block before each node of a graph, exactly.
//!
//! `younger_sets` solves the focused analysis of a block over plain families of sets (Touzeau, Maïza, Monniaux and
//! Reineke 2019). Stands on the view of a cache set in `set_view`, the families of `plain_family` and the solver of
//! `lattice_fix`. The layer above gets, for each node, which sets of other blocks some path leaves, from a cache that
//! starts empty or may hold anything.
#![tactic(auto)]

mod families;
mod lists;
#[cfg(test)]
mod tests;
mod values;

pub use values::{YoungerSets, younger_sets};
