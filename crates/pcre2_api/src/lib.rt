//! The library's calls (pcre2api): a pattern is compiled once, and then matched against subjects. What a caller hands
//! to them or gets from them is handed on here, whichever crate it stands in.
#![tactic(auto)]

mod alike;
mod code;
mod dfa;
mod found;
mod laws;
mod lead;
mod need;
mod reserved;
mod seek;
mod starts;
mod substitute;
mod taken;
mod walk;

pub use code::{Code, Info};
pub use dfa::DfaFound;
pub use dfa_drive::{EndList, Lists};
pub use found::Found;
pub use frame_store::Span;
pub use laws::{searches_are_enough, worked_substitutions};
pub use match_drive::Scratch;
pub use pat_needs::ByteText;
pub use pat_shape::LineShape;
pub use pat_tree::{Bsr, MatchOptions, NameTable, Newline, Options, PartialMode, Steps};
pub use pcre_io::{Block, Callouts, NoCallouts};
pub use pcre2_errors::{CompileError, DfaError, MatchError, SubstError, fault_text};
pub use reserved::ReservedError;
pub use starts::is_text;
pub use substitute::{SubstOptions, Substituted};
pub use walk::{matching_at, place_behind};
