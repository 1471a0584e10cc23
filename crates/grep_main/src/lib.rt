//! A run of pcre2grep, from its words on.
#![tactic(auto)]

mod grep;
mod inputs;
mod laws;
mod messages;
mod pattern_files;
mod status;
mod streams;
mod sum;

pub use laws::{
    sound_runs_end_well, told_words_ask_for_one_list, words_without_files_search_standard_input,
    worked_rows,
};
pub use status::run_grep;
