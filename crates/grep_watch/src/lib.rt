//! Lines of an input that are known to have no match, passed over without a search.
#![tactic(auto)]

mod filter;
mod watch;

pub use filter::{Filter, Known, Sieve};
pub use watch::{Watch, ends_in_lf};
