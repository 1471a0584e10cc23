//! The ordered search of a pattern at one start place, on one stack of records (pcre2matching, "The standard matching
//! algorithm").
#![tactic(auto)]

mod accepts;
mod back;
mod captures;
mod ends;
mod enter;
mod ready;
mod returns;
mod run;
mod scratch;

pub use frame_board::Ready;
pub use frame_state::answer::{PlaceAnswer, Signal};
pub use frame_state::searchable::{Run, Searchable};
pub use ready::{run_at, run_at_reserved};
pub use scratch::{Scratch, search_at};
