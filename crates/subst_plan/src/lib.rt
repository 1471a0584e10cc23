//! Replacements: what they are read as, and what they write for a match (pcre2api, "Creating a new
//! string with substitutions").
#![tactic(auto)]

mod escapes;
mod expanding;
mod faults;
mod forcing;
mod groups;
mod laws;
mod pieces;
mod plan;
mod reading;
mod references;

pub use expanding::{expand, expand_into};
pub use faults::{ExpandError, PlanError};
pub use groups::{Groups, Lookup};
pub use laws::{
    defaults_are_chosen_as_wholes, texts_are_chosen_as_wholes, worked_expansions,
    worked_replacements,
};
pub use pieces::{Case, Forcing, Inner, Key, Piece};
pub use plan::Plan;
