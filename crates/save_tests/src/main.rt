//! Images of patterns, and bytes that are nearly one: the data files that the words name are read.
#![tactic(auto)]

#[cfg(test)]
mod images;
mod patterns;
mod rows;

use patterns::Patterns;
use std::process::ExitCode;

fn main(rt: HostRuntime) -> ExitCode {
    test_files::run(&rt, "save_tests", &Patterns)
}
