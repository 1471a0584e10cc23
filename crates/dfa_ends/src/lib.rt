//! What a DFA match means, with its laws: the set of ends of a tree from one place, and the answer
//! over all start places (pcre2matching, "The alternative matching algorithm"). No call here
//! searches: a matcher proves that it answers so.
#![tactic(auto)]

mod laws;

pub use laws::{answers_agree, ends_agree, ends_are_listed, reaching_is_tested, worked_rows};
