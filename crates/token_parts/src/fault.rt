//! The faults that a token can have by itself.
ghost use Rattle.std.specs.Prelude.{◌≡◌};

/// A fault of a token.
#[derive(Clone, Copy, Debug, PartialEq, Eq)]
pub struct Fault {
    /// The fault's number.
    pub number: i32,
    /// Its place in the pattern: where the token begins, or the pattern's length.
    pub at: usize,
}

impl Fault {
    /// The fault of this number at a place.
    pub fn new(number: i32, at: usize) -> Fault
        ensures { result ≡ record { number = number; at = at } }
    {
        Fault { number, at }
    }
}

/// A group isn't closed, or the pattern ends in what begins one.
pub const UNCLOSED_GROUP: i32 = 114;

/// No character that begins a group or a setting follows `(?`.
pub const UNKNOWN_GROUP: i32 = 111;

/// A form that the manual has and that is left out by name.
pub const LEFT_OUT: i32 = 195;

/// A pattern is too long.
pub const PATTERN_TOO_LARGE: i32 = 120;

/// What a conditional group tests isn't well written.
pub const MALFORMED_CONDITION: i32 = 128;

/// A number is greater than that of any group.
pub const GROUP_NUMBER_TOO_BIG: i32 = 161;

pub(crate) const BAD_CONTROL: i32 = 102;

pub(crate) const UNCLOSED_COMMENT: i32 = 118;

pub(crate) const RELATIVE_ZERO: i32 = 126;

pub(crate) const CODE_TOO_LARGE: i32 = 134;

pub(crate) const BAD_CODE_DIGITS: i32 = 135;

pub(crate) const CALLOUT_NUMBER_TOO_BIG: i32 = 138;

pub(crate) const MALFORMED_CALLOUT: i32 = 139;

pub(crate) const UNCLOSED_NAME: i32 = 142;

pub(crate) const EMPTY_NAME: i32 = 144;

pub(crate) const NAME_TOO_LONG: i32 = 148;

pub(crate) const MALFORMED_REFERENCE: i32 = 169;

pub(crate) const SURROGATE_CODE: i32 = 173;
