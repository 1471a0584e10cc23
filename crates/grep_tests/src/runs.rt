//! Runs of pcre2grep over streams and files in memory.
ghost use Rattle.std.specs.Prelude.{◌≤◌};

use crate::marks::Manner;
use crate::rows::{File, Named, Reading, Row};
use grep_main::run_grep;
use pcre_io::{MemFiles, MemSink, MemSource};
use std::alloc::{AllocError, Global};
use test_files::{Place, Report, escaped};

/// The greatest number of bytes that one read gives, or one write takes.
#[derive(Clone, Copy)]
pub struct Piece {
    bytes: u32,
    ghost some: { 1 ≤ bytes },
}

impl Piece {
    /// Three bytes, so that lines and characters come in parts.
    pub const SMALL: Piece = Piece { bytes: 3 };

    /// The piece of a number that is written in decimal.
    pub fn from_text(text: &str) -> Option<Piece> {
        match text.parse() {
            Ok(bytes) if bytes >= 1 => Some(Piece { bytes }),
            _ => None,
        }
    }
}

// What a run wrote, and its status.
#[derive(Drop)]
struct Written {
    out: MemSink,
    err: MemSink,
    status: u8,
}

fn add_all(alloc: Global, set: &mut MemFiles, files: &[File]) -> Result<(), AllocError> {
    for file in files {
        let name = String::from_str(alloc, file.name.as_str())?;
        let bytes = file.bytes.as_slice().to_vec(alloc)?;
        if set.add(name, bytes, file.fail_at).is_err() {
            return Err(AllocError);
        }
    }
    Ok(())
}

fn name_all(alloc: Global, set: &mut MemFiles, names: &[Named]) -> Result<(), AllocError> {
    for named in names {
        let name = String::from_str(alloc, named.name.as_str())?;
        let done = match named.manner {
            Manner::Other => set.make_other(name),
            Manner::Closed => set.close(name),
            Manner::Refused => set.refuse(name),
        };
        if done.is_err() {
            return Err(AllocError);
        }
    }
    Ok(())
}

fn run(alloc: Global, section: &Reading, row: &Row, piece: Piece) -> Result<Written, AllocError> {
    let mut files = MemFiles::new(alloc);
    add_all(alloc, &mut files, section.files.as_slice())?;
    add_all(alloc, &mut files, row.files.as_slice())?;
    name_all(alloc, &mut files, section.names.as_slice())?;
    name_all(alloc, &mut files, row.names.as_slice())?;
    let input = row.input.as_ref().unwrap_or(&section.input);
    let mut input = MemSource::new(input.as_slice().to_vec(alloc)?, row.fail_at, piece.bytes);
    let mut out = MemSink::new(alloc, row.room, piece.bytes);
    let mut err = MemSink::new(alloc, row.message_room, piece.bytes);
    let status = run_grep(
        alloc,
        row.words.as_slice(),
        &mut files,
        &mut input,
        &mut out,
        &mut err,
    );
    Ok(Written { out, err, status })
}

// Tells where a stream differs.
fn tell_stream(
    alloc: Global,
    report: &mut Report,
    place: Place<'_>,
    stream: &str,
    wanted: &[u8],
    got: &[u8],
) -> Result<(), AllocError> {
    if wanted == got {
        return Ok(());
    }
    let wanted = escaped(alloc, wanted)?;
    let got = escaped(alloc, got)?;
    report.tell(
        place,
        format_args!("{stream}: wanted \"{wanted}\", got \"{got}\""),
    )
}

/// Runs a row with each of its pieces, and tells what differs.
///
/// # Errors
///
/// Memory lacked.
pub fn check_row(
    alloc: Global,
    section: &Reading,
    row: &Row,
    place: Place<'_>,
    report: &mut Report,
) -> Result<(), AllocError> {
    for piece in row.pieces.iter() {
        let got = run(alloc, section, row, *piece)?;
        tell_stream(
            alloc,
            report,
            place,
            "output",
            row.out.as_slice(),
            got.out.bytes(),
        )?;
        tell_stream(
            alloc,
            report,
            place,
            "messages",
            row.err.as_slice(),
            got.err.bytes(),
        )?;
        if row.status != got.status {
            let (wanted, got) = (row.status, got.status);
            report.tell(place, format_args!("status: wanted {wanted}, got {got}"))?;
        }
    }
    Ok(())
}
