//! That a program has one answer.
//!
//! Every program is accepted or refused, and not both; it is refused with one fault, and accepted with one numbering.
//! No set has too many blocks, or one set is the first that has, and not both. A way names one path. Two reports of the
//! program in a cache of one geometry and one start agree in all but the ways of unknown lines, for a text is read as
//! lines in one way; and the text of its graph is one. From an empty cache a path can only do what it does there. All
//! of it is about the definitions alone, and shows that they leave nothing open but the ways. Stands on those of
//! `cache_spec`, `flow_spec`, `report_spec` and `node_spec`, and finds the layers of any program by the lemmas of
//! `call_expand`. The layer above gets that its status doesn't hang on how a port cuts the bytes.
#![tactic(auto)]

mod laws;

pub use laws::{Paths, empty_start, one_answer, one_path, one_reading, one_text};
