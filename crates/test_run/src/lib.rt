//! What pcre2test writes of a script: its lines, and after each of them what it comes to.
#![tactic(auto)]

mod course;
mod dfa;
mod laws;
mod lines;
mod matches;
mod options;
mod patterns;
mod replacing;
mod script;
mod stop;
mod subjects;

pub use laws::worked_rows;
pub use script::run_script;
pub use stop::ScriptStop;
