//! Small worked programs, against which the definitions are reviewed.
//!
//! Each function is a law: it does nothing, and its contract says what the definitions of files, words, successors,
//! acceptance, caches, orders, ways and reports give at examples that were worked out by hand. Most of them the checker
//! computes; those that speak of all paths of a program, or of all readings of a text, are proved. So a slip in a
//! definition shows here. It stands on the crates of definitions, on `one_answer` for which texts are alike, and on lemmas
//! of `report_lines` about addresses; no layer stands on it.
#![tactic(auto)]

mod laws;

pub use laws::{
    worked_acceptance, worked_alikeness, worked_caches, worked_compressed,
    worked_compressed_reports, worked_faults, worked_file, worked_flows, worked_order,
    worked_reports, worked_segments, worked_texts, worked_way,
};
