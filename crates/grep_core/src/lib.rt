//! What pcre2grep writes for one input after those before it.
#![tactic(auto)]

mod file;
mod filters;
mod lines;
mod quiet;
mod scan;
mod state;

pub use file::{grep_file, grep_file_by};
pub use filters::{filter_by, sieve_for};
pub use grep_match::{PatternError, Patterns};
pub use grep_output::{Ended, FileEnd, Stop, write_ended, write_message};
pub use grep_watch::{Filter, Sieve};
pub use state::GrepState;
