//! What tokens of a pattern are, and the texts of which they are made: numbers, names, codes, references, calls,
//! conditions, option settings, callouts and comments.
#![tactic(auto)]

mod bytes;
mod callouts;
mod characters;
mod codes;
mod comments;
mod conditions;
mod fault;
mod names;
mod settings;
mod targets;
mod token;

pub use bytes::{Run, byte, is_letter, numeral, run_end, stands};
pub use callouts::callout;
pub use characters::character;
pub use codes::{coded, octal};
pub use comments::{blank_end, blanks_end, comment, is_extended};
pub use conditions::condition;
pub use fault::{
    Fault, GROUP_NUMBER_TOO_BIG, LEFT_OUT, MALFORMED_CONDITION, PATTERN_TOO_LARGE, UNCLOSED_GROUP,
    UNKNOWN_GROUP,
};
pub use names::{LONGEST_NAME, name_end, word_end};
pub use settings::setting;
pub use targets::{
    begins_number, group_escape, name_escape, named_call, named_reference, numbered_call,
    numbered_escape,
};
pub use token::{
    CondText, LexFlags, Lexed, OpenKind, OptionMask, QuantMode, StartItem, Target, Token, VerbKind,
};
