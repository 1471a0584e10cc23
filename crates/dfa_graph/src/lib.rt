//! The graph of a tree, whose paths end where the tree can end.
#![tactic(auto)]

mod build;
mod draft;
mod forms;
mod making;

pub use build::MOST_NESTED;
pub use making::{Graph, GraphError};
