//! The alternatives of a group.

/// Which alternatives a group may still have.
#[derive(Clone, Copy)]
pub enum Bars {
    /// Any.
    Free,
    /// The first one of a condition is read, and a second one may come.
    First,
    /// The second one of a condition is read.
    Second,
    /// The only one of DEFINE is read.
    Define,
}

/// How the alternatives of a group number the groups in them.
#[derive(Clone, Copy)]
pub enum Numbering {
    /// Each goes on from the one before.
    Onward,
    /// Each begins again after `base` groups. The greatest number of those before is kept.
    Reset { base: u16, greatest: u16 },
}
