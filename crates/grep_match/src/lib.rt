//! The patterns of pcre2grep, and what they find in a line.
#![tactic(auto)]

mod ending;
mod found;
mod modes;
mod patterns;
mod search;
mod unsearched;
mod wider;

pub use ending::line_end;
pub use found::{MatchList, Place};
pub use modes::{Mode, is_matching, is_named, mode_of};
pub use patterns::{PatternError, Patterns};
pub use search::{Answer, Verdict, Workspace, first_answer, limits, search_line, shows_each};
pub use unsearched::{Needed, needed_text};
pub use wider::{Wider, wider_of};
