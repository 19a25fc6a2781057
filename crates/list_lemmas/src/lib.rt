//! Small lemmas on the members of lists, for the proofs of more than one crate.
//!
//! Proofs alone, and no code: what an empty list, a list of one and a list with one more element contain; what is found
//! at a place; what a map gives; and what holds of each element. Stands on the library's lists alone.
#![tactic(auto)]
