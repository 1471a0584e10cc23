//! The numbers of the faults that this crate tells itself.

pub(crate) const NOT_UTF8: i32 = -3;

pub(crate) const NOTHING_TO_REPEAT: i32 = 109;

pub(crate) const NO_SUCH_GROUP: i32 = 115;

pub(crate) const GROUPS_TOO_DEEP: i32 = 119;

pub(crate) const UNOPENED_GROUP: i32 = 122;

pub(crate) const TOO_MANY_ALTERNATIVES: i32 = 127;

pub(crate) const NAME_IS_TAKEN: i32 = 143;

pub(crate) const ALTERNATIVES_OF_DEFINE: i32 = 154;

pub(crate) const OTHER_NAME_OF_NUMBER: i32 = 165;

pub(crate) const KEEP_OUT_IN_LOOKAROUND: i32 = 199;
