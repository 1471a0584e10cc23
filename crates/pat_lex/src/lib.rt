//! The tokens of a pattern.
#![tactic(auto)]

mod characters;
mod classes;
mod escapes;
mod faults;
mod groups;
mod laws;
mod lexer;
mod quantifiers;
mod verbs;

pub use faults::UNKNOWN_VERB;
pub use laws::{
    class_bytes_stand_for_themselves, literals_are_characters, plain_bytes_stand_for_themselves,
    quoted_bytes_stand_for_themselves, worked_rows,
};
pub use lexer::next_token;
pub use token_parts::{
    CondText, Fault, LexFlags, OpenKind, OptionMask, QuantMode, StartItem, Target, Token, VerbKind,
};
