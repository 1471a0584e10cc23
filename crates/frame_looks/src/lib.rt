//! Lookarounds, conditions and calls of groups as the ordered search runs them (pcre2pattern, "Assertions",
//! "Conditional groups", "Recursive patterns").
#![tactic(auto)]

pub mod calls;
pub mod conds;
pub mod looks;
pub mod tries;
