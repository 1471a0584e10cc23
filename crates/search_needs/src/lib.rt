//! That a search whose subject lacks a text which every match takes finds none, and passes no limit (docs/SPEED.md, "A
//! text that every match needs"). No call here searches.
#![tactic(auto)]

mod laws;

pub use laws::{no_match_without_begin, no_match_without_need};
