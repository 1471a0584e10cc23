//! What pcre2grep writes of an input that is held whole and searched by blocks of lines.
#![tactic(auto)]

mod job;
mod lines;
mod parts;
mod scan;
mod text;

pub use grep_multi::{HoldError, hold, line_end};
pub use text::grep_text;
