//! Rows of patterns are read.

use crate::rows::{Row, Wanted, row_of};
use crate::shown::{nodes_of, shown};
use pat_build::{ReadError, read};
use pat_tree::{Options, Tree};
use std::alloc::{AllocError, Global};
use test_files::{Check, Place, Report, Section};

/// Each line of a section is a row.
pub struct Patterns;

// Tells a text that isn't wanted.
fn compare(
    place: Place<'_>,
    wanted: &str,
    found: &str,
    report: &mut Report,
) -> Result<(), AllocError> {
    if wanted == found {
        return Ok(());
    }
    report.tell_difference(place, wanted, found)
}

fn compare_options(
    place: Place<'_>,
    wanted: Options,
    found: Options,
    report: &mut Report,
) -> Result<(), AllocError> {
    if wanted == found {
        return Ok(());
    }
    report.tell(place, format_args!("wanted {wanted:?}, got {found:?}"))
}

fn check_tree(
    alloc: Global,
    place: Place<'_>,
    wanted: Wanted<'_>,
    tree: &Tree,
    report: &mut Report,
) -> Result<(), AllocError> {
    match wanted {
        Wanted::Read(text) => compare(place, text, shown(alloc, tree)?.as_str(), report),
        Wanted::Nodes(text) => compare(place, text, nodes_of(alloc, tree)?.as_str(), report),
        Wanted::Sets(options) => compare_options(place, options, *tree.options(), report),
    }
}

// What a row says in the words of its file.
fn said(wanted: Wanted<'_>) -> &str {
    match wanted {
        Wanted::Read(text) | Wanted::Nodes(text) => text,
        Wanted::Sets(_) => "options",
    }
}

fn check_row(
    alloc: Global,
    place: Place<'_>,
    row: &Row<'_>,
    report: &mut Report,
) -> Result<(), AllocError> {
    report.count_row();
    match read(alloc, row.pattern.as_slice(), row.options) {
        Ok(tree) => check_tree(alloc, place, row.wanted, &tree, report),
        Err(ReadError::Bad { number, at }) => {
            let fault = format!(in alloc; "{number} at {at}")?;
            compare(place, said(row.wanted), fault.as_str(), report)
        }
        Err(ReadError::Memory) => report.tell(place, "memory lacked"),
    }
}

impl Check for Patterns {
    fn check(
        &self,
        alloc: Global,
        section: &Section<'_>,
        report: &mut Report,
    ) -> Result<(), AllocError> {
        for (i, line) in section.body.split('\n').enumerate() {
            match row_of(alloc, line)? {
                Ok(row) => check_row(alloc, section.place(i), &row, report)?,
                Err(_) if line.starts_with('#') => {}
                Err(why) => report.tell(section.place(i), why)?,
            }
        }
        Ok(())
    }
}
