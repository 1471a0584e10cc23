//! The lines that pcre2test writes of a match: bytes as they are shown, names, and callouts (pcre2test, "CALLOUTS").
#![tactic(auto)]

pub mod callouts;
pub mod columns;
pub mod gathered;
pub mod marks;
pub mod shown;
