//! Runs the command lines of pcre2grep that stand in data files, over streams and files in memory,
//! and tells what differs from what stands there.
#![tactic(auto)]

mod marks;
mod rows;
mod runs;
mod words;
mod wrong;

use rows::Reading;
use runs::check_row;
use std::alloc::{AllocError, Global};
use std::process::ExitCode;
use test_files::{Check, Report, Section};
use wrong::Wrong;

struct CommandLines;

// Runs the rows of a section to its end, or to a line that can't be taken, which is told.
fn check_rows(
    alloc: Global,
    section: &Section<'_>,
    reading: &mut Reading,
    report: &mut Report,
) -> Result<(), AllocError> {
    for (i, line) in section.body.split('\n').enumerate() {
        match reading.take(i, line) {
            Ok(None) => {}
            Ok(Some(row)) => {
                report.count_row();
                check_row(alloc, reading, &row, section.place(row.line), report)?;
            }
            Err(Wrong::Memory) => return Err(AllocError),
            Err(Wrong::Because(why)) => return report.tell(section.place(i), why),
        }
    }
    match reading.open_row() {
        Some(line) => report.tell(section.place(line), "a row without a status"),
        None => Ok(()),
    }
}

impl Check for CommandLines {
    fn check(
        &self,
        alloc: Global,
        section: &Section<'_>,
        report: &mut Report,
    ) -> Result<(), AllocError> {
        check_rows(alloc, section, &mut Reading::new(alloc), report)
    }
}

fn main(rt: HostRuntime) -> ExitCode {
    test_files::run(&rt, "grep_tests", &CommandLines)
}
