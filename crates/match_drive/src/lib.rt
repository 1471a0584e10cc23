//! Where a pattern's tree stands in a subject, over its start places (pcre2api, "Matching a pattern: the traditional
//! function").
#![tactic(auto)]

mod answer;
mod begin;
mod course;
mod drive;
mod driven;
mod laws;
mod need;
mod outline;
mod places;
mod run;
mod starts;

pub use answer::MatchAnswer;
pub use drive::{search, search_by, search_on, search_reserved};
pub use driven::Driven;
pub use frame_machine::{Ready, Scratch};
pub use laws::places_are_enough;
pub use outline::Outline;
pub use starts::{is_left_out, last_start, start_after};
