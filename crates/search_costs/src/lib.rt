//! What a failure of a search costs (docs/SPEED.md, "Hostile patterns"): where a search came to what
//! is left to do, and what it captured on the way, changes no Step and no unit of a failure. No call
//! here searches.
#![tactic(auto)]

mod laws;

pub use laws::{
    failures_are_counted, failures_are_recalled, failures_are_seen, failures_cost_the_same,
    runs_share_failures, worked_rows,
};
