//! The sites of a pattern: a graph of what a search has left to do, by keys that decide what a
//! failure costs.
#![tactic(auto)]

mod laws;
pub mod op;

pub use laws::{first_site_is_the_pattern, repeats_hand_on, sites_fail_again, sites_lead_on};
pub use op::Op;
