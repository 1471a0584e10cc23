//! That start optimisations change no answer of a search (pcre2api, "Option bits for pcre2_compile()",
//! PCRE2_NO_START_OPTIMIZE). No call here searches.
#![tactic(auto)]

mod laws;

pub use laws::starts_are_the_same;
