//! The scripts of pcre2test: what each line is.
#![tactic(auto)]

mod closing;
mod entries;
mod escapes;
mod laws;
mod plan;
mod reader;
mod subject_lines;
mod subjects;

pub use entries::{Command, Entry, PatternEntry, SubjectEntry};
pub use laws::{lines_of_a_pattern_are_joined, worked_scripts, worked_subjects};
pub use pat_tree::Memory;
pub use plan::TestPlan;
pub use reader::ScriptReader;
pub use test_modifiers::{ListError, Modifiers, Refusal, read_list};
