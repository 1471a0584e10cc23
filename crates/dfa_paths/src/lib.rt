//! The states of a graph and what their paths mean, with the laws between paths and trees. No call here makes a graph
//! or searches one.
#![tactic(auto)]

mod graph;
mod laws;

pub use graph::Node;
pub use laws::{fragments_mean, paths_end};
pub use pat_lengths::Back;
