//! How many Steps a search for a pattern takes at most, and how many units it holds (docs/SPEED.md, "A text that every
//! match needs").
#![tactic(auto)]

mod bounds;

pub use bounds::{Bound, Growth, bounds_of, in_turn};
