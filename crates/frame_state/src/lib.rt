//! The state of the ordered search, and the steps that all forms of a pattern share (pcre2matching, "The standard
//! matching algorithm").
#![tactic(auto)]

pub mod answer;
pub mod behind;
pub mod callouts;
pub mod framing;
pub mod machine;
pub mod reach;
pub mod searchable;
