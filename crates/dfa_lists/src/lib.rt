//! All ends of a pattern at one place, by lists of states over a graph.
#![tactic(auto)]

mod lists;
mod matching;
mod reaching;
mod tries;

pub use dfa_graph::{Graph, GraphError};
pub use dfa_paths::{Node, fragments_mean, paths_end};
pub use lists::{EndList, EndSet, Lists};
pub use matching::ends;
