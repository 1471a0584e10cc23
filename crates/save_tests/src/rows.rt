//! A row: a pattern and its image, or a place of that image and a byte there that makes it none.

use pat_tree::Options;
use std::alloc::{AllocError, Global};

/// What a line says.
#[derive(Drop)]
pub enum Row<'a> {
    /// `/PATTERN/ => IMAGE`, or `/PATTERN/auto_callout,utf => IMAGE`.
    Image {
        pattern: &'a str,
        options: Options,
        bytes: Vec<u8>,
    },
    /// `PLACE => BYTE`.
    Fault {
        at: usize,
        byte: u8,
    },
}

const CALLED: Options = Options {
    auto_callout: true,
    utf: true,
    ..Options::PLAIN
};

fn options_of(modifiers: &str) -> Option<Options> {
    match modifiers {
        "" => Some(Options::PLAIN),
        "auto_callout,utf" => Some(CALLED),
        _ => None,
    }
}

// The bytes of a text with two hexadecimal digits for each.
fn bytes_of(alloc: Global, text: &str) -> Result<Option<Vec<u8>>, AllocError> {
    let mut bytes = Vec::new(alloc);
    let mut rest = text;
    for _ in 0..text.len() {
        let (Some(digits), Some(after)) = (rest.get(..2), rest.get(2..)) else {
            break;
        };
        let Ok(byte) = u8::from_str_radix(digits, 16) else {
            return Ok(None);
        };
        bytes.push(byte)?;
        rest = after;
    }
    Ok(if rest.is_empty() { Some(bytes) } else { None })
}

fn image_of<'a>(alloc: Global, left: &'a str, right: &str) -> Result<Option<Row<'a>>, AllocError> {
    let Some((pattern, modifiers)) = left.rsplit_once('/') else {
        return Ok(None);
    };
    let Some(bytes) = bytes_of(alloc, right)? else {
        return Ok(None);
    };
    Ok(options_of(modifiers).map(|options| Row::Image {
        pattern,
        options,
        bytes,
    }))
}

fn fault_of<'a>(left: &str, right: &str) -> Option<Row<'a>> {
    let at = left.parse().ok()?;
    let byte = right.parse().ok()?;
    Some(Row::Fault { at, byte })
}

/// The row of a line. None where it is no row.
///
/// # Errors
///
/// Memory lacked.
pub fn row_of(alloc: Global, line: &str) -> Result<Option<Row<'_>>, AllocError> {
    let Some((left, right)) = line.split_once(" => ") else {
        return Ok(None);
    };
    match left.strip_prefix('/') {
        Some(left) => image_of(alloc, left, right),
        None => Ok(fault_of(left, right)),
    }
}
