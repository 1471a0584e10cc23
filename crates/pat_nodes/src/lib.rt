//! Nodes as the reader of a pattern makes them: groups, alternatives, repeats, verbs, and patterns
//! under LITERAL.
#![tactic(auto)]

pub mod callouts;
pub mod calls;
pub mod frames;
pub mod groups;
pub mod items;
pub mod literal;
pub mod names;
pub mod nodes;
pub mod verbs;
