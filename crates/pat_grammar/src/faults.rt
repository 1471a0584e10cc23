//! The numbers of the faults that this crate tells itself.

pub(crate) const UNCLOSED_CLASS: i32 = 106;

pub(crate) const RANGE_OUT_OF_ORDER: i32 = 108;

pub(crate) const UNKNOWN_PROPERTY: i32 = 147;

/// A hyphen stands beside a set and isn't last.
pub(crate) const NO_RANGE: i32 = 150;
