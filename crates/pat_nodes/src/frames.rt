//! Groups that are open, and the atom that a quantifier may follow.
use pat_grammar::alternatives::{Bars, Numbering};
use pat_tree::{GroupList, Item, Kids, NodeId, Options};

/// The alternatives that were read of a group, and the parts of the one in progress.
#[derive(Drop)]
pub struct Level {
    pub branches: Kids,
    pub parts: Kids,
}

/// What a conditional group tests.
#[derive(Drop)]
pub enum Test {
    /// One of these groups is set.
    AnySet(GroupList),
    /// Some call is active.
    InCall,
    /// The latest active call is of one of these groups.
    InCallOf(GroupList),
}

/// What a group is.
#[derive(Drop)]
pub enum Form {
    /// A group, with its number where it captures.
    Group {
        number: Option<u16>,
    },
    Atomic,
    Look {
        ahead: bool,
        positive: bool,
        atomic: bool,
    },
    Condition(Test),
    /// A conditional group that only defines.
    Define,
    /// A lookaround that a conditional group tests.
    Asserted {
        ahead: bool,
        positive: bool,
    },
    /// A conditional group that tests a lookaround, which is the first of its alternatives.
    Asserting,
}

/// An open group: what holds around it (the options, whether that is inside a lookaround, which
/// alternatives may come there and how they number groups), its place, and what encloses it.
#[derive(Drop)]
pub struct Frame {
    pub form: Form,
    pub around: Options,
    pub looking: bool,
    pub bars: Bars,
    pub numbering: Numbering,
    pub at: u32,
    pub outer: Level,
}

/// What is told of the inside of a group where it begins.
#[derive(Clone, Copy)]
pub struct Inside {
    pub options: Options,
    pub groups: u16,
    pub numbering: Numbering,
    pub beyond: Option<usize>,
    pub at: usize,
}

/// The atom before the place, which a quantifier may follow.
#[derive(Clone, Copy)]
pub enum Atom {
    /// It takes one character, and has no node yet: under a quantifier it gets none of its own.
    Single { item: Item, at: u32 },
    /// It has a node.
    Whole { id: NodeId, at: u32 },
    /// It is a lookaround.
    Look { id: NodeId, at: u32 },
}

impl Atom {
    /// Where it stands.
    pub(crate) fn at(self) -> u32 {
        match self {
            Atom::Single { at, .. } | Atom::Whole { at, .. } | Atom::Look { at, .. } => at,
        }
    }
}
