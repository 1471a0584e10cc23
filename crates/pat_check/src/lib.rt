//! What is known of a pattern before any search: the lengths that it can match, whether it can match an empty text, the
//! bytes that it can begin with, and its size (pcre2pattern, "Lookbehind assertions"; pcre2api, "Information about a
//! compiled pattern").
#![tactic(auto)]

mod facts;
mod item_bytes;
mod laws;
mod leads;
mod names;
mod size;
mod starts;
mod support;
mod survey;

pub use facts::{CheckError, Facts, check};
pub use laws::worked_rows;
pub use pat_lengths::{Backs, lengths_are_bounds};
pub use pat_needs::{Bound, Growth, Need};
pub use support::DfaSupport;
