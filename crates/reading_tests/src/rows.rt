//! A row: `/PATTERN/MODIFIERS => ` and what the pattern is read as.

use crate::bytes::pattern_of;
use crate::settings::options_of;
use pat_tree::Options;
use std::alloc::{AllocError, Global};

/// What a row says of its pattern.
#[derive(Clone, Copy)]
pub enum Wanted<'a> {
    /// The text of its tree, or of its fault: `NUMBER at PLACE`.
    Read(&'a str),
    /// `nodes ..`: its nodes in their order, with `; ` between them.
    Nodes(&'a str),
    /// `sets ..`, or `sets nothing`: the options that it has of its own.
    Sets(Options),
}

/// A pattern, and what is wanted of it.
#[derive(Drop)]
pub struct Row<'a> {
    pub pattern: Vec<u8>,
    pub options: Options,
    pub wanted: Wanted<'a>,
}

// The pattern's text, its modifiers, and what is wanted.
fn parts_of(line: &str) -> Option<(&str, &str, &str)> {
    let (left, wanted) = line.split_once(" => ")?;
    let (pattern, modifiers) = left.strip_prefix('/')?.rsplit_once('/')?;
    Some((pattern, modifiers, wanted))
}

fn wanted_of(text: &str) -> Option<Wanted<'_>> {
    if let Some(nodes) = text.strip_prefix("nodes ") {
        return Some(Wanted::Nodes(nodes));
    }
    match text.strip_prefix("sets ") {
        Some("nothing") => Some(Wanted::Sets(Options::PLAIN)),
        Some(modifiers) => Some(Wanted::Sets(options_of(modifiers)?)),
        None => Some(Wanted::Read(text)),
    }
}

/// The row of a line, or why it is none.
///
/// # Errors
///
/// Memory lacked.
pub fn row_of(alloc: Global, line: &str) -> Result<Result<Row<'_>, &'static str>, AllocError> {
    let Some((pattern, modifiers, wanted)) = parts_of(line) else {
        return Ok(Err("a row is `/PATTERN/MODIFIERS => ` and a tree or a fault"));
    };
    let Some(pattern) = pattern_of(alloc, pattern)? else {
        return Ok(Err("`⟨` begins a byte of two hexadecimal digits"));
    };
    match (options_of(modifiers), wanted_of(wanted)) {
        (Some(options), Some(wanted)) => Ok(Ok(Row {
            pattern,
            options,
            wanted,
        })),
        _ => Ok(Err("a modifier that isn't known")),
    }
}
