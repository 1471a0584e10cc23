//! The program pcre2grep, which is pcre2test too: `run` is the tool over any files, streams and words, and `main` runs
//! it on the real ones.
#![tactic(auto)]

mod real;
mod start;
#[cfg(test)]
mod tests;
mod top;

use std::process::ExitCode;
pub use top::run;

fn main(rt: HostRuntime) -> ExitCode {
    real::run_real(&rt)
}
