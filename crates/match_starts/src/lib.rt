//! What a pattern begins with, tested at a start place before the machine goes over the pattern: the single items of
//! its branches, and the repeat of an item (docs/SPEED.md).
#![tactic(auto)]

mod prefix;
mod repeats;
mod search;
mod spans;
mod whole;

pub use prefix::{Tested, branches_tested, is_admitted, test_branches};
pub use repeats::{FirstRepeat, fails_on, first_repeat, goes_by_repeat};
pub use search::{are_bytes, first_in, is_off, match_limit};
pub use whole::{goes_by_whole, test_whole, whole_repeat};
