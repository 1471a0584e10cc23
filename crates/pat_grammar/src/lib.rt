//! The grammar of patterns over their tokens, and what is read of a pattern's text without a tree: classes, settings,
//! start items, and the items before which callouts stand (pcre2pattern).
#![tactic(auto)]

pub mod alternatives;
pub mod brackets;
pub mod callouts;
pub mod cursor;
pub mod error;
mod faults;
mod laws;
pub mod options;
pub mod properties;
pub mod start;

pub use error::ReadError;
pub use laws::readings_are_bounded;
