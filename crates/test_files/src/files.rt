//! The files that a program's words name.

use crate::report::{Place, Report};
use crate::sections::{Section, check_head, newlines, section_of, whole};
use std::alloc::{AllocError, Global};
use std::process::ExitCode;
use std::{env, fs, io};

/// How a program runs the rows of its data files.
pub trait Check {
    /// Runs the rows of a section, counts each and tells those that fail.
    ///
    /// # Errors
    ///
    /// Memory lacked.
    fn check(
        &self,
        alloc: Global,
        section: &Section<'_>,
        report: &mut Report,
    ) -> Result<(), AllocError>;
}

// Runs the sections of a file, whose last line was taken off.
fn check_parts<C: Check>(
    alloc: Global,
    file: &str,
    text: &str,
    check: &C,
    report: &mut Report,
) -> Result<(), AllocError> {
    let mut line = 1usize;
    for (i, part) in text.split("\n==").enumerate() {
        if i == 0 {
            check_head(file, part, report)?;
        } else {
            match section_of(file, line, part) {
                Some(section) => check.check(alloc, &section, report)?,
                None => report.tell(Place { file, line }, format_args!("a heading without rows"))?,
            }
        }
        line = line.saturating_add(newlines(part)).saturating_add(1);
    }
    Ok(())
}

fn check_text<C: Check>(
    alloc: Global,
    file: &str,
    text: &str,
    check: &C,
    report: &mut Report,
) -> Result<(), AllocError> {
    match whole(text) {
        Some(text) => check_parts(alloc, file, text, check, report),
        None => {
            let line = newlines(text).saturating_add(1);
            let place = Place { file, line };
            report.tell(
                place,
                format_args!("cut off: the last line is not `== end`"),
            )
        }
    }
}

// The line of the first byte that isn't part of a character in UTF-8.
fn bad_line(bytes: &[u8], valid_up_to: usize) -> usize {
    let good = bytes.get(..valid_up_to).unwrap_or(bytes);
    good.iter()
        .filter(|b| **b == b'\n')
        .count()
        .saturating_add(1)
}

fn check_file<C: Check>(
    rt: &HostRuntime,
    file: &str,
    check: &C,
    report: &mut Report,
) -> io::Result<()> {
    let bytes = match fs::read(rt, file) {
        Ok(bytes) => bytes,
        Err(e) => {
            report.tell(Place { file, line: 0 }, format_args!("{e}"))?;
            return Ok(());
        }
    };
    match str::from_utf8(bytes.as_slice()) {
        Ok(text) => check_text(rt.alloc(), file, text, check, report)?,
        Err(e) => {
            let line = bad_line(bytes.as_slice(), e.valid_up_to());
            report.tell(Place { file, line }, format_args!("not UTF-8"))?;
        }
    }
    Ok(())
}

fn run_files<C: Check>(rt: &HostRuntime, program: &str, check: &C) -> io::Result<ExitCode> {
    let mut report = Report::new(rt.alloc());
    for file in env::args(rt)?.skip(1) {
        check_file(rt, file.as_str(), check, &mut report)?;
    }
    report.write(rt, program)?;
    Ok(ExitCode::from(if report.is_good() { 0 } else { 1 }))
}

/// Runs the rows of the files that the program's words name. Each failure is a line of the output, `FILE:LINE: why`.
/// The counts go to the messages. The status is 0 where there are rows and none of them failed, and else 1.
pub fn run<C: Check>(rt: &HostRuntime, program: &str, check: &C) -> ExitCode {
    match run_files(rt, program, check) {
        Ok(code) => code,
        Err(e) => {
            let _ = eprintln!(rt; "{program}: {e}");
            ExitCode::from(1)
        }
    }
}
