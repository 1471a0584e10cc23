//! The parts of a pattern as the ordered search runs them: alternatives, repeats and atomic groups (pcre2pattern).
#![tactic(auto)]

pub mod atomic;
pub mod items;
mod passing;
mod possessive;
pub mod repeats;
