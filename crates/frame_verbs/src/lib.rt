//! Backtracking verbs as the ordered search runs them (pcre2pattern, "Backtracking control").
#![tactic(auto)]

pub mod catches;
mod skips;
pub mod verbs;
