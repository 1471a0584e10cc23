//! Images are loaded and saved again, and nearly images refused.

use crate::rows::{Row, row_of};
use pat_build::read as read_pattern;
use pat_save::{LoadError, Saved, read, write};
use pat_tree::{Options, Tree};
use std::alloc::{AllocError, Global};
use test_files::{Check, Place, Report, Section};

/// Each line of a section is a row.
pub struct Patterns;

fn is_bad(alloc: Global, bytes: &[u8]) -> bool {
    matches!(read(alloc, bytes), Err(LoadError::Bad))
}

// What is loaded is saved as the same bytes.
fn is_same(alloc: Global, bytes: &[u8]) -> bool {
    let Ok(list) = read(alloc, bytes) else {
        return false;
    };
    match write(alloc, &list) {
        Ok(again) => again.bytes() == bytes,
        Err(_) => false,
    }
}

fn are_bad_or_same(alloc: Global, bytes: &[u8]) -> bool {
    is_bad(alloc, bytes) || is_same(alloc, bytes)
}

// The trees have the same nodes.
fn are_alike(alloc: Global, one: &Tree, other: &Tree) -> Result<bool, AllocError> {
    if one.root() != other.root() {
        return Ok(false);
    }
    for id in 0..=one.root() {
        let first = format!(in alloc; "{:?}", one.node(id))?;
        let second = format!(in alloc; "{:?}", other.node(id))?;
        if first != second {
            return Ok(false);
        }
    }
    Ok(one.options() == other.options() && one.groups() == other.groups())
}

// The pattern is saved with its text, and as the tree that it is read as.
fn is_saved(
    alloc: Global,
    saved: &Saved,
    pattern: &str,
    options: Options,
) -> Result<bool, AllocError> {
    match read_pattern(alloc, pattern.as_bytes(), options) {
        Ok(tree) => Ok(
            saved.text.bytes() == pattern.as_bytes() && are_alike(alloc, &saved.tree, &tree)?,
        ),
        Err(_) => Ok(false),
    }
}

fn is_image(
    alloc: Global,
    bytes: &[u8],
    pattern: &str,
    options: Options,
) -> Result<bool, AllocError> {
    let Ok(list) = read(alloc, bytes) else {
        return Ok(false);
    };
    match list.as_slice() {
        [saved] => is_saved(alloc, saved, pattern, options),
        _ => Ok(false),
    }
}

// How many bytes are left where what is left is an image too.
fn good_part(alloc: Global, bytes: &[u8]) -> Option<usize> {
    for n in 0..bytes.len() {
        if !is_bad(alloc, &bytes[..n]) {
            return Some(n);
        }
    }
    None
}

const BITS: [u8; 8] = [1, 2, 4, 8, 16, 32, 64, 128];

// Whether a bit of a byte that is turned gives a fault or another image.
fn is_told_changed(alloc: Global, bytes: &mut [u8], at: usize) -> bool {
    if at >= bytes.len() {
        return true;
    }
    let kept = bytes[at];
    bytes[at] = kept ^ BITS[at % 8];
    let told = are_bad_or_same(alloc, bytes);
    bytes[at] = kept;
    told
}

fn check_image(
    alloc: Global,
    place: Place<'_>,
    image: &mut Vec<u8>,
    report: &mut Report,
) -> Result<(), AllocError> {
    if !is_same(alloc, image) {
        report.tell(place, "saved again it isn't the same")?;
    }
    if let Some(n) = good_part(alloc, image) {
        report.tell(place, format_args!("its first {n} bytes are an image"))?;
    }
    for at in 0..image.len() {
        if !is_told_changed(alloc, image, at) {
            report.tell(place, format_args!("a change at {at} isn't told"))?;
        }
    }
    image.push(0)?;
    if !is_bad(alloc, image) {
        report.tell(place, "it is an image with a byte behind it")?;
    }
    image.pop();
    Ok(())
}

fn check_fault(
    alloc: Global,
    place: Place<'_>,
    image: &mut [u8],
    at: usize,
    byte: u8,
    report: &mut Report,
) -> Result<(), AllocError> {
    if at >= image.len() || image[at] == byte {
        return report.tell(place, "the byte stands there");
    }
    let kept = image[at];
    image[at] = byte;
    let bad = is_bad(alloc, image);
    image[at] = kept;
    if bad {
        return Ok(());
    }
    report.tell(place, "it is an image")
}

// Runs a row; a fault is one of the last image.
fn check_row(
    alloc: Global,
    place: Place<'_>,
    row: Row<'_>,
    image: &mut Vec<u8>,
    report: &mut Report,
) -> Result<(), AllocError> {
    report.count_row();
    match row {
        Row::Image {
            pattern,
            options,
            bytes,
        } => {
            *image = bytes;
            if !is_image(alloc, image, pattern, options)? {
                report.tell(place, "not the image of the pattern")?;
            }
            check_image(alloc, place, image, report)
        }
        Row::Fault { at, byte } => check_fault(alloc, place, image, at, byte, report),
    }
}

impl Check for Patterns {
    fn check(
        &self,
        alloc: Global,
        section: &Section<'_>,
        report: &mut Report,
    ) -> Result<(), AllocError> {
        let mut image = Vec::new(alloc);
        for (i, line) in section.body.split('\n').enumerate() {
            match row_of(alloc, line)? {
                Some(row) => check_row(alloc, section.place(i), row, &mut image, report)?,
                None if line.starts_with('#') => {}
                None => report.tell(section.place(i), "no row")?,
            }
        }
        Ok(())
    }
}
