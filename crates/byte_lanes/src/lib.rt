//! Searches over bytes that go 32 or 64 at a time: the first byte of a set, the first newline of a
//! convention, and how often a byte stands in a slice; and the number that digits write. No call here takes memory.
#![tactic(auto)]

mod byte_set;
mod byte_test;
mod count;
mod digits;
mod lanes;
mod laws;
mod line_end;
mod members;
mod places;
mod plain;
mod scan;

pub use byte_set::ByteSet;
pub use count::count_byte;
pub use digits::{digit_value, number};
pub use laws::{newlines_before_a_place, newlines_by_convention};
pub use line_end::{EndKind, LineEnd, find_line_end, newline_at};
pub use places::{find_in_set, find_in_three_sets, find_in_two_sets};
pub use plain::find_past_plain;
