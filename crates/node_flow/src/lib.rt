//! Four tables beside a finished tree: what runs when a part of the pattern is done, the order in which its parts
//! stand, the branch that a THEN in a part leads out of, and the branch of a lookbehind that a part ends.
#![tactic(auto)]

mod around;
mod branches;
mod flow;
mod laws;
mod look_branches;
mod ranks;

pub use branches::Branches;
pub use flow::Flow;
pub use laws::{
    branches_are_around, followers_hang_together, look_branches_are_around, parts_stand_in_order,
    worked_rows,
};
pub use look_branches::LookBranches;
pub use ranks::{Ranks, preorder};
