//! The files that the words of pcre2grep stand for: directories are gone through, and names are filtered.
#![tactic(auto)]

mod filters;
mod items;
mod laws;
mod lists;
mod paths;
mod walk;
mod words;

pub use filters::{FilterError, NameFilter};
pub use grep_args::FilterOption;
pub use laws::{
    targets_stand_below_their_words, told_targets_may_stand, worked_directories, worked_paths,
    worked_words,
};
pub use lists::TargetList;
pub use paths::word_path;
pub use words::targets;
