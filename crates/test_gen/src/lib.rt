//! What pcre2test writes under `-gen`: lines that are made, and what patterns come to over them.
#![tactic(auto)]

mod counts;
mod laws;
mod lines;
mod text;

pub use laws::worked_lines;
pub use text::write_generated;
