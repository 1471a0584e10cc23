//! Which ends a pattern has at the first start place that decides (pcre2matching, "The alternative
//! matching algorithm").
#![tactic(auto)]

mod answer;
mod drive;
mod ends;
mod laws;

pub use answer::DfaAnswer;
pub use dfa_lists::{EndList, Graph, Lists};
pub use drive::dfa_search;
pub use laws::{common_forms_are_supported, places_are_enough};
