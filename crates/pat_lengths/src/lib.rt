//! The lengths that the parts of a pattern can match: whether it can match an empty text, and how far the branches of
//! its lookbehinds reach (pcre2pattern, "Lookbehind assertions"; pcre2api, "Information about a compiled pattern").
#![tactic(auto)]

mod accepts;
mod backs;
mod behind;
mod counts;
mod groups;
mod kids;
mod laws;
mod leading;
mod lengths;
mod passing;
mod ranks;
mod rings;
mod rounds;
mod spans;

pub use accepts::is_accept;
pub use backs::{Back, Backs, LengthFault, fault_in, greatest_in};
pub use behind::branch_spans;
pub use counts::{product, sum};
pub use groups::{Groups, group_table};
pub use laws::{first_refused_is_leftmost, lengths_are_bounds};
pub use passing::passes_whole;
pub use spans::Span;
