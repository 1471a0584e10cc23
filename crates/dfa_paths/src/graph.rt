//! The states of a graph.
use pat_lengths::Back;
use pat_tree::{AnchorKind, Item};

/// A state, and the states that follow it.
#[derive(Clone, Copy, Debug, PartialEq, Eq)]
pub enum Node {
    /// Takes what the item takes.
    One {
        item: Item,
        next: u32,
    },
    /// `\R`
    Break {
        next: u32,
    },
    /// Goes on where the assertion holds.
    Anchor {
        kind: AnchorKind,
        next: u32,
    },
    /// Goes on in both ways.
    Split {
        first: u32,
        second: u32,
    },
    Goto {
        next: u32,
    },
    /// A lookaround: goes on in the first way where nested paths from the entry have an end, else in
    /// the second. Those of a branch of a lookbehind begin so many characters before the place, where
    /// its lengths differ only an end at the place counts, and the second way is the next branch.
    Look {
        back: Option<Back>,
        entry: u32,
        hit: u32,
        miss: u32,
    },
    /// Goes on where nested paths from the entry have their furthest end.
    Atomic {
        entry: u32,
        next: u32,
    },
    /// Goes on nowhere.
    Dead,
    /// The end of a path.
    Match,
}
