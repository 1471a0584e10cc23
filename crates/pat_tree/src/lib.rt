//! What a pattern is: a tree of numbered nodes with its classes, names and options.
#![tactic(auto)]

mod draft;
mod group_set;
mod laws;
mod lists;
mod memory;
mod names;
mod newline;
mod nodes;
mod options;
mod steps;
mod tree;

pub use draft::{BadRef, Draft};
pub use laws::{
    a_bad_place_is_the_leftmost, a_loose_node_is_no_child, a_pair_takes_its_place, names_in_order,
    nodes_stand_for_nested_trees, the_leftmost_bad_reference,
};
pub use lists::{ByteList, GroupList, Kids, ListOf, NumberList, PartList, TextList, Word};
pub use memory::Memory;
pub use names::{NameEntry, NameTable};
pub use newline::{newline_at, newline_before};
pub use nodes::{AnchorKind, ClassSpec, Cond, Item, Node, NodeId, Part, Placed, SetName, Verb};
pub use options::{Bsr, MatchOptions, Newline, Options, PartialMode};
pub use steps::Steps;
pub use tree::Tree;
