//! The text of subject lines: the bytes that it writes, and where its modifiers begin.
ghost use Rattle.std.specs.Prelude.{◌≡◌, ◌+◌, ◌*◌, ◌<◌, nat_le, ◌≤◌, ◌++◌, true, false, length, encode_utf8, IfOk};
ghost use Rattle.std.specs.Prelude.{IfSome, OnOk, Some, None};
ghost use Rattle.std.specs.List.{repeat};
ghost use Rattle.test_script.specs.Subjects.{greatest_subject, repeated, times, copies, not_too_long, subject_text};
ghost use Rattle.test_script.specs.Pieces.{repeated_seen, written_seen, Repeats, Copies, IsPlain, IsTurn, IsWithin};

use crate::escapes::{Piece, piece_at};
use byte_lanes::number;
use std::alloc::{AllocError, Global};
use token_parts::{Run, run_end, stands};

/// The greatest length of a subject.
const GREATEST: u128 = 16_777_216;

/// The bytes between `\[` and `]`, and the place after that.
#[derive(Drop)]
pub struct Repetition {
    pub bytes: Vec<u8>,
    pub to: usize,
}

/// What a subject line writes, and where its list of modifiers begins, if it has one.
#[derive(Drop)]
pub struct Written {
    pub bytes: Vec<u8>,
    pub list: Option<usize>,
}

fn push_char(bytes: &mut Vec<u8>, c: char) -> Result<(), AllocError>
    ensures { OnOk result (bytes.new.items ≡ bytes.old.items ++ encode_utf8 c) }
{
    let mut room = [0; 4];
    bytes.extend_from_slice(c.encode_utf8(&mut room).as_bytes())
}

/// Adds what a piece of a repetition's text writes, and answers the place after it. None where it writes nothing.
fn push_plain(
    bytes: &mut Vec<u8>,
    utf: bool,
    text: &[u8],
    at: usize,
) -> Result<Option<usize>, AllocError>
    requires { at ≤ length text.now }
    ensures value { IfOk result (IsPlain utf text.now at bytes.old.items bytes.new.items) }
    ensures place { IfOk result (λ found. IfSome found (λ to. to ≤ length text.now)) }
{
    match piece_at(utf, text, at) {
        Piece::Byte { b, to } => {
            bytes.push(b)?;
            Ok(Some(to))
        }
        Piece::Char { c, to } => {
            push_char(bytes, c)?;
            Ok(Some(to))
        }
        Piece::End => Ok(None),
        Piece::Opens(_) => Ok(None),
        Piece::Lists(_) => Ok(None),
        Piece::Wrong => Ok(None),
    }
}

/// The text of a repetition from a place on, if it is one.
fn repeated(
    alloc: Global,
    utf: bool,
    text: &[u8],
    from: usize,
) -> Result<Option<Repetition>, AllocError>
    requires { from ≤ length text.now }
    ensures value { IfOk result (λ found.
        repeated_seen found ≡ repeated utf text.now (length text.now) from) }
    ensures place { IfOk result (λ found.
        IfSome found (λ repetition. repetition.to ≤ length text.now)) }
{
    let mut bytes = Vec::new(alloc);
    let mut at = from;
    for turn in 0..text.len() {
        if stands(text, b']', at) {
            return Ok(Some(Repetition { bytes, to: at + 1 }));
        }
        match push_plain(&mut bytes, utf, text, at)? {
            Some(to) => at = to,
            None => return Ok(None),
        }
    }
    Ok(None)
}

/// How often a repetition repeats, by the `{n}` at a place, and the place after that.
#[tactic(auto, unfolding(crate::specs::Subjects::times))]
fn times(text: &[u8], at: usize) -> Option<(u32, usize)>
    requires { at ≤ length text.now }
    ensures value { result ≡ times text.now at }
    ensures place { IfSome result (λ found. found.1 ≤ length text.now) }
{
    if !stands(text, b'{', at) {
        return None;
    }
    let to = run_end(text, Run::Digits(10), at + 1);
    if at + 1 < to && stands(text, b'}', to) {
        match number(&text[at + 1..to], 10) {
            Some(n) => Some((n, to + 1)),
            None => None,
        }
    } else {
        None
    }
}

/// Whether so many copies after so many bytes aren't too many bytes.
fn copies_fit(bytes: usize, copy: usize, count: u32) -> bool
    ensures { result ≡ nat_le (bytes + copy * count) greatest_subject }
{
    bytes as u128 + copy as u128 * u128::from(count) <= GREATEST
}

/// How often a copy is added for so many copies: those of nothing are none.
#[tactic(auto, using(crate::proofs::Writing::empty_copies))]
fn turns_of(copy: &[u8], count: u32) -> u32
    ensures { repeat result copy.now ≡ repeat count copy.now }
{
    if copy.is_empty() { 0 } else { count }
}

/// Adds so many copies, where the bytes don't become too many by that. Whether they don't.
#[tactic(auto, using(crate::proofs::Writing::copies_more, crate::proofs::Writing::copies_too_many))]
fn push_copies(bytes: &mut Vec<u8>, copy: &[u8], count: u32) -> Result<bool, AllocError>
    ensures { IfOk result (Repeats bytes.old.items copy.now count bytes.new.items) }
{
    if !copies_fit(bytes.len(), copy.len(), count) {
        return Ok(false);
    }
    for turn in 0..turns_of(copy, count) {
        bytes.extend_from_slice(copy)?;
    }
    Ok(true)
}

/// Adds what a repetition writes, whose text begins at a place, and answers the place after it. None where it isn't
/// one, or writes too many bytes.
fn push_repetition(
    alloc: Global,
    bytes: &mut Vec<u8>,
    utf: bool,
    text: &[u8],
    from: usize,
) -> Result<Option<usize>, AllocError>
    requires { from ≤ length text.now }
    ensures value { IfOk result
        (Copies bytes.old.items
        (copies utf text.now (repeated utf text.now (length text.now) from)) bytes.new.items) }
    ensures place { IfOk result (λ found. IfSome found (λ to. to ≤ length text.now)) }
{
    let Some(repetition) = repeated(alloc, utf, text, from)? else {
        return Ok(None);
    };
    let Some((count, to)) = times(text, repetition.to) else {
        return Ok(None);
    };
    if push_copies(bytes, repetition.bytes.as_slice(), count)? {
        Ok(Some(to))
    } else {
        Ok(None)
    }
}

/// What comes after a piece of a text.
enum Turn {
    /// The piece at this place.
    Goes(usize),
    /// Nothing. The list of modifiers begins at this place, if there is one.
    Ends(Option<usize>),
    /// An escape is none that there is, or the bytes are too many.
    Stops,
}

/// Adds what the piece at a place writes.
fn push_piece(
    alloc: Global,
    bytes: &mut Vec<u8>,
    utf: bool,
    text: &[u8],
    at: usize,
) -> Result<Turn, AllocError>
    requires { at ≤ length text.now }
    ensures value { IfOk result (IsTurn utf text.now at bytes.old.items bytes.new.items) }
    ensures place { IfOk result (IsWithin (length text.now)) }
{
    match piece_at(utf, text, at) {
        Piece::End => Ok(Turn::Ends(None)),
        Piece::Lists(to) => Ok(Turn::Ends(Some(to))),
        Piece::Byte { b, to } => {
            bytes.push(b)?;
            Ok(Turn::Goes(to))
        }
        Piece::Char { c, to } => {
            push_char(bytes, c)?;
            Ok(Turn::Goes(to))
        }
        Piece::Opens(to) => match push_repetition(alloc, bytes, utf, text, to)? {
            Some(after) => Ok(Turn::Goes(after)),
            None => Ok(Turn::Stops),
        },
        Piece::Wrong => Ok(Turn::Stops),
    }
}

/// A subject line, unless its bytes are too many.
fn not_too_long(bytes: Vec<u8>, list: Option<usize>) -> Option<Written>
    ensures value { written_seen result ≡ not_too_long (bytes.items, list) }
    ensures place { IfSome result (λ line. line.list ≡ list) }
{
    if bytes.len() as u128 <= GREATEST {
        Some(Written { bytes, list })
    } else {
        None
    }
}

/// The bytes that a text writes, and where its list begins (pcre2test, "SUBJECT LINE SYNTAX"). None where an escape is
/// none that there is, or the bytes are too many.
pub fn subject_text(alloc: Global, utf: bool, text: &[u8]) -> Result<Option<Written>, AllocError>
    ensures value { IfOk result (λ found. written_seen found ≡ subject_text utf text.now) }
    ensures place { IfOk result (λ found.
        IfSome found (λ line. IfSome line.list (λ from. from ≤ length text.now))) }
{
    let mut bytes = Vec::new(alloc);
    let mut at = 0;
    for turn in 0..text.len() + 1 {
        match push_piece(alloc, &mut bytes, utf, text, at)? {
            Turn::Goes(to) => at = to,
            Turn::Ends(list) => return Ok(not_too_long(bytes, list)),
            Turn::Stops => return Ok(None),
        }
    }
    Ok(None)
}
