//! Scripts of pcre2test and what is written of them, line by line: the data files that the words name are run.
#![tactic(auto)]

mod compared;
mod lines;
mod scripts;
#[cfg(test)]
mod stops;

use scripts::Scripts;
use std::process::ExitCode;

fn main(rt: HostRuntime) -> ExitCode {
    test_files::run(&rt, "script_tests", &Scripts)
}
