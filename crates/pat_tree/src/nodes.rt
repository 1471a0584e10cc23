//! The nodes of a pattern's tree, and what they hold.
use crate::lists::{GroupList, Kids, PartList};

/// The number of a node, counted from 0 in the order of adding.
pub type NodeId = u32;

/// What takes one character.
#[derive(Clone, Copy, Debug, PartialEq, Eq)]
pub enum Item {
    /// This character, or in any case.
    Char { c: u32, caseless: bool },
    /// Any character: `.` under DOTALL.
    AnyAll,
    /// Any character where no newline begins: `.` and `\N`.
    NotNewline,
    /// A character of the class of this number.
    Class(u32),
}

/// A simple assertion (pcre2pattern, "Simple assertions", "Circumflex and dollar").
#[derive(Clone, Copy, Debug, PartialEq, Eq)]
pub enum AnchorKind {
    /// `^`
    Caret { multi: bool },
    /// `$`
    Dollar { multi: bool, end_only: bool },
    /// `\A`
    SubjectStart,
    /// `\z`
    SubjectEnd,
    /// `\Z`
    EndOrNewline,
    /// `\G`
    StartGiven,
    /// `\b`
    Word { ucp: bool },
    /// `\B`
    NotWord { ucp: bool },
}

/// A backtracking verb with its name's number, where it has one (pcre2pattern, "Backtracking control").
#[derive(Clone, Copy, Debug, PartialEq, Eq)]
pub enum Verb {
    Accept { name: Option<u32> },
    Fail { name: Option<u32> },
    Commit { name: Option<u32> },
    Prune { name: Option<u32> },
    Skip { name: Option<u32> },
    Then { name: Option<u32> },
    Mark { name: Option<u32> },
}

/// The test of a conditional group (pcre2pattern, "Conditional groups").
#[derive(Debug, Drop)]
pub enum Cond {
    /// One of these groups is set.
    AnySet(GroupList),
    /// Some call is active.
    InCall,
    /// The latest active call is of one of these groups.
    InCallOf(GroupList),
    /// Never: DEFINE.
    Never,
    /// A lookaround, or a callout and a lookaround after it, in this node.
    Assert(NodeId),
}

/// A node. Its children have smaller numbers.
#[derive(Debug, Drop)]
pub enum Node {
    /// Takes nothing.
    Empty,
    /// One character.
    One(Item),
    /// `\R`
    Break,
    /// One after the other.
    Seq(Kids),
    /// Alternatives; a capturing group has a number.
    Group {
        number: Option<u16>,
        branches: Kids,
    },
    /// A repeat of a node.
    Repeat {
        body: NodeId,
        min: u16,
        max: Option<u16>,
        lazy: bool,
    },
    /// A repeat of what takes one character.
    OneRepeat {
        item: Item,
        min: u16,
        max: Option<u16>,
        lazy: bool,
    },
    /// An atomic group.
    Atomic(Kids),
    /// A lookaround.
    Look {
        ahead: bool,
        positive: bool,
        atomic: bool,
        branches: Kids,
    },
    /// A conditional group.
    Cond {
        test: Cond,
        yes: NodeId,
        no: Option<NodeId>,
    },
    /// A call of a group as a subroutine; 0 is the whole pattern.
    Call {
        group: u16,
    },
    /// A backreference to the first set group of these.
    Ref {
        groups: GroupList,
        caseless: bool,
    },
    /// A simple assertion.
    Anchor(AnchorKind),
    /// `\K`
    KeepOut,
    /// A backtracking verb.
    VerbNode(Verb),
    /// A callout: its number, its string in the pattern (both places 0 where there is none), and the next item's
    /// place and length.
    Callout {
        number: u8,
        text_from: u32,
        text_to: u32,
        item_at: u32,
        item_len: u32,
    },
}

/// A node and its place in the pattern.
#[derive(Debug, Drop)]
pub struct Placed {
    pub node: Node,
    pub at: u32,
}

/// A set of characters with a name (pcre2pattern, "Generic character types", "POSIX character classes").
#[derive(Clone, Copy, Debug, PartialEq, Eq)]
pub enum SetName {
    /// `\d` and `[:digit:]`
    Digit,
    /// `\s` and `[:space:]`
    Space,
    /// `\w` and `[:word:]`
    Word,
    Alpha,
    Alnum,
    Lower,
    Upper,
    Blank,
    Cntrl,
    Graph,
    Print,
    Punct,
    Ascii,
    Xdigit,
    /// `\h`
    H,
    /// `\v`
    V,
    /// `\p` with a property's number.
    Property(u16),
}

/// A part of a class.
#[derive(Clone, Copy, Debug, PartialEq, Eq)]
pub enum Part {
    /// The characters from one to another, both included.
    Range { from: u32, to: u32 },
    /// The characters of a set, or those outside it.
    Set { set: SetName, not: bool, ucp: bool },
}

/// A class: the characters of any part, or under `negated` all others (pcre2pattern, "Square brackets and character
/// classes").
#[derive(Debug, Drop)]
pub struct ClassSpec {
    pub negated: bool,
    pub caseless: bool,
    pub parts: PartList,
}
