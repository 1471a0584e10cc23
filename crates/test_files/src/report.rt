//! How many rows were run, and what is told of those that failed.
use std::alloc::{AllocError, Global};
use std::fmt::Display;
use std::io;

/// A line of a data file, counted from 1.
#[derive(Clone, Copy)]
pub struct Place<'a> {
    pub file: &'a str,
    pub line: usize,
}

/// What the rows of a program's files came to.
#[derive(Drop)]
pub struct Report {
    alloc: Global,
    told: String,
    rows: u64,
    failed: u64,
}

impl Report {
    /// No row was run. Takes no memory.
    pub fn new(alloc: Global) -> Report {
        Report {
            alloc,
            told: String::new(alloc),
            rows: 0,
            failed: 0,
        }
    }

    /// Counts a row that is run.
    pub fn count_row(&mut self) {
        self.rows = self.rows.saturating_add(1);
    }

    /// Counts a failure, and tells why it is one: a row that differs, or a line that can't be read.
    ///
    /// # Errors
    ///
    /// Memory lacked.
    pub fn tell<W: Display + Drop>(&mut self, place: Place<'_>, why: W) -> Result<(), AllocError> {
        self.failed = self.failed.saturating_add(1);
        let line = format!(in self.alloc; "{}:{}: {why}\n", place.file, place.line)?;
        self.told.push_str(line.as_str())
    }

    /// Tells a difference of a row, as `tell`.
    ///
    /// # Errors
    ///
    /// Memory lacked.
    pub fn tell_difference(
        &mut self,
        place: Place<'_>,
        wanted: &str,
        got: &str,
    ) -> Result<(), AllocError> {
        self.tell(place, format_args!("wanted {wanted:?}, got {got:?}"))
    }

    /// Whether rows were run, and none of them failed.
    pub fn is_good(&self) -> bool {
        self.rows > 0 && self.failed == 0
    }

    /// Writes what is told to the output, and the counts to the messages.
    ///
    /// # Errors
    ///
    /// A write failed.
    pub fn write(&self, rt: &HostRuntime, program: &str) -> io::Result<()> {
        print!(rt; "{}", self.told)?;
        eprintln!(rt; "{program}: {} rows, {} failed", self.rows, self.failed)
    }
}
