//! Inputs that are held whole.
ghost use Rattle.std.specs.Prelude.{◌≡◌, ◌≤◌, [], length, take, OnOk};
ghost use Rattle.line_feed.specs.Rows.{Fault, ends_open, has_no_row};
ghost use Rattle.grep_multi.specs.Taken.{TakesOne, TakesAll};
ghost use Rattle.grep_multi.specs.Held.{HoldsInput, bytes_of, lines_of};

use byte_lanes::{EndKind, find_line_end};
use pcre_io::{Memory, Source};
use std::alloc::Global;
use std::marker::Model;

/// The most bytes of an input that is held.
const MOST: usize = 16_777_216;

// At most so many bytes are asked for at a time.
const PIECE: usize = 65_536;

/// The bytes of an input.
#[derive(Drop)]
pub struct Text {
    bytes: Vec<u8>,
}

impl Model for Text {
    ghost use Rattle.std.specs.Prelude.{ℕ, List};

    ghost Value = { List ℕ };

    ghost view = { λ text. text.bytes.items };
}

impl Text {
    /// The bytes.
    pub fn as_slice(&self) -> &[u8]
        ensures { result.now ≡ self.now }
    {
        self.bytes.as_slice()
    }
}

/// An input that is held whole.
#[derive(Drop)]
pub struct Held {
    /// Its bytes; where a read failed, those of the whole lines before that.
    pub text: Text,
    /// Whether a read failed.
    pub faulted: bool,
}

/// Why an input isn't held.
#[derive(Clone, Copy, Debug, PartialEq, Eq)]
pub enum HoldError {
    /// It has more than 16,777,216 bytes.
    TooLarge,
    /// Want of memory.
    Memory,
}

impl From<Memory> for HoldError {
    ghost from_gives = { λ _ e. e ≡ told.Memory };

    ghost use Rattle.std.specs.Prelude.{◌≡◌};
    ghost use Rattle.grep_multi.specs.declared.held.HoldError.TheVariants as told;

    fn from(_e: Memory) -> HoldError {
        HoldError::Memory
    }
}

// What a read came to: bytes, the end of the input, or a fault.
#[derive(Clone, Copy, Debug, PartialEq, Eq)]
enum Came {
    More,
    End,
    Failed,
}

// Makes bytes so long.
fn make_room(bytes: &mut Vec<u8>, size: usize) -> Result<(), Memory>
    requires { length bytes.old.items ≤ size }
    ensures front { OnOk result (take (length bytes.old.items) bytes.new.items ≡ bytes.old.items) }
    ensures len { OnOk result (length bytes.new.items ≡ size) }
{
    bytes.resize(size, 0)?;
    Ok(())
}

// Reads a piece behind the bytes that are there.
fn take_piece<S: Source>(bytes: &mut Vec<u8>, source: &mut S) -> Result<Came, Memory>
    requires { length bytes.old.items ≤ 16777216 }
    ensures { TakesOne bytes.old.items bytes.new.items (S.tells source.old) (S.tells source.new)
        result }
{
    let filled = bytes.len();
    make_room(bytes, filled + PIECE)?;
    match source.read(&mut bytes[filled..filled + PIECE]) {
        Ok(n) => {
            bytes.truncate(filled + n);
            Ok(if n == 0 { Came::End } else { Came::More })
        }
        Err(_) => {
            bytes.truncate(filled);
            Ok(Came::Failed)
        }
    }
}

// Reads up to the end of the input, a fault, or more bytes than an input may have.
fn take_all<S: Source>(bytes: &mut Vec<u8>, source: &mut S) -> Result<Came, Memory>
    requires { bytes.old.items ≡ [] }
    ensures { TakesAll 16777216 bytes.new.items (S.tells source.old) (S.tells source.new) result }
{
    'piece: while bytes.len() <= MOST {
        match take_piece(bytes, source)? {
            Came::More => {}
            came => return Ok(came),
        }
    }
    Ok(Came::More)
}

// Whether bytes end in a CR that an LF behind it would join.
fn ends_open(bytes: &[u8], kind: EndKind) -> bool
    ensures { result ≡ ends_open kind bytes.now }
{
    if bytes.is_empty() {
        return false;
    }
    kind.has_crlf() && bytes[bytes.len() - 1] == 13
}

// Whether bytes behind which a read failed have no whole line, where their first newline begins at k.
fn has_no_row(bytes: &[u8], kind: EndKind, k: usize) -> bool
    requires { k ≤ length bytes.now }
    ensures { result ≡ has_no_row kind bytes.now Fault k }
{
    k == bytes.len() || (ends_open(bytes, kind) && k + 1 == bytes.len())
}

// How many bytes the whole lines have with which bytes begin, where a read failed behind these.
fn whole_len(bytes: &[u8], kind: EndKind) -> usize
    ensures { take result bytes.now ≡ bytes_of (lines_of kind bytes.now Fault) }
{
    let mut rest = bytes;
    'line: loop {
        let end = find_line_end(rest, 0, kind);
        if has_no_row(rest, kind, end.at) {
            return bytes.len() - rest.len();
        }
        rest = &rest[end.at + end.len..];
    }
}

/// Holds an input whole: reads it to its end, or up to a read that fails. Lines end at the newlines of `kind`. At most
/// 16,842,752 bytes are read (pcre2grep, "OPTIONS", -M).
///
/// # Errors
///
/// TooLarge where the source gave more than 16,777,216 bytes; want of memory.
pub fn hold<S: Source>(alloc: Global, kind: EndKind, source: &mut S) -> Result<Held, HoldError>
    ensures { HoldsInput kind (S.tells source.old) (S.tells source.new) result }
{
    let mut bytes = Vec::new(alloc);
    match take_all(&mut bytes, source)? {
        Came::More => Err(HoldError::TooLarge),
        Came::End => Ok(Held {
            text: Text { bytes },
            faulted: false,
        }),
        Came::Failed => {
            let whole = whole_len(bytes.as_slice(), kind);
            bytes.truncate(whole);
            Ok(Held {
                text: Text { bytes },
                faulted: true,
            })
        }
    }
}
