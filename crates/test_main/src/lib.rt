//! A run of pcre2test, from its words on.
#![tactic(auto)]

mod laws;
mod messages;
mod run;
mod words;

pub use laws::{sound_scripts_end_well, worked_words};
pub use run::run_test;
