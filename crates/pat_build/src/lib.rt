//! What a pattern is read as: the grammar of patterns over their tokens.
#![tactic(auto)]

mod callouts;
mod calls;
mod faults;
mod handlers;
mod laws;
mod machine;
mod openings;
mod reader;
mod tokens;
mod verbs;

pub use laws::worked_rows;
pub use pat_grammar::{ReadError, readings_are_bounded};
pub use reader::read;
