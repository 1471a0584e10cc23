//! Patterns with what they are read as or how they are refused: the data files that the words name are read.
#![tactic(auto)]

mod bytes;
#[cfg(test)]
mod faults;
#[cfg(test)]
mod limits;
#[cfg(test)]
mod names;
mod patterns;
mod rows;
mod settings;
mod shown;

use patterns::Patterns;
use std::process::ExitCode;

fn main(rt: HostRuntime) -> ExitCode {
    test_files::run(&rt, "reading_tests", &Patterns)
}
