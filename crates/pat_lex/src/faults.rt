//! The numbers of the faults that this crate tells itself.

/// A verb or a start item isn't known, or isn't well written.
pub const UNKNOWN_VERB: i32 = 160;

pub(crate) const BACKSLASH_AT_END: i32 = 101;

pub(crate) const UNKNOWN_ESCAPE: i32 = 103;

pub(crate) const COUNTS_OUT_OF_ORDER: i32 = 104;

pub(crate) const COUNT_TOO_BIG: i32 = 105;

pub(crate) const NOT_IN_CLASS: i32 = 107;

pub(crate) const POSIX_OUTSIDE: i32 = 112;

pub(crate) const COLLATING_ELEMENT: i32 = 113;

pub(crate) const UNKNOWN_POSIX_NAME: i32 = 130;

pub(crate) const MALFORMED_PROPERTY: i32 = 146;

pub(crate) const MARK_WITHOUT_NAME: i32 = 166;

pub(crate) const VERB_NAME_TOO_LONG: i32 = 176;
