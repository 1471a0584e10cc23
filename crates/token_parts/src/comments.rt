//! What is passed over: comments (pcre2pattern, "Comments"), and the white space that EXTENDED ignores (pcre2api,
//! "PCRE2_EXTENDED").
ghost use Rattle.std.specs.Prelude.{◌≡◌, ◌+◌, ◌<◌, ◌≤◌, IsTrue, length};
ghost use Rattle.token_parts.specs.Bytes.{passes_at};
ghost use Rattle.token_parts.specs.Tell.{IsSound};
ghost use Rattle.token_parts.specs.Comments.{newline_at, first_newline, line_end, comment, is_extended, is_white};
ghost use Rattle.token_parts.specs.Comments.{begins_mark, begins_separator, wide_len, white_len, blank_end};
ghost use Rattle.token_parts.specs.Comments.{blanks_end};

use crate::bytes::{Run, begins, byte, run_end, stands};
use crate::fault::{Fault, UNCLOSED_COMMENT};
use crate::token::{LexFlags, Lexed, Token};
use pat_tree::newline_at;

/// How long the newline is that begins at the place; 0 where none does.
#[tactic(auto, using(crate::proofs::Lines::longest_within), unfolding(crate::specs::Comments::newline_at))]
fn newline_len(text: &[u8], flags: LexFlags, i: usize) -> usize
    requires { i ≤ length text.now }
    ensures value { result ≡ newline_at text.now flags i }
    ensures within { i + result ≤ length text.now }
{
    newline_at(text, i, flags.newline, flags.utf)
}

/// Where the first newline from the place on begins, or the end of the text.
#[tactic(auto, using(crate::proofs::Places::newline_here, crate::proofs::Places::newline_later, crate::proofs::Places::newline_nowhere))]
fn first_newline(text: &[u8], flags: LexFlags, from: usize) -> usize
    requires { from ≤ length text.now }
    ensures value { result ≡ first_newline text.now flags from }
    ensures past { from ≤ result }
    ensures within { result ≤ length text.now }
{
    for i in from..text.len() {
        if newline_len(text, flags, i) > 0 {
            return i;
        }
    }
    text.len()
}

/// Past the first newline from the place on, or the end of the text.
#[tactic(auto, unfolding(crate::specs::Comments::line_end))]
fn line_end(text: &[u8], flags: LexFlags, from: usize) -> usize
    requires { from ≤ length text.now }
    ensures value { result ≡ line_end text.now flags from }
    ensures past { from ≤ result }
    ensures within { result ≤ length text.now }
{
    let i = first_newline(text, flags, from);
    i + newline_len(text, flags, i)
}

/// A comment from `(?#` to the next closing parenthesis. Fault 118, at the pattern's end: there is none.
#[tactic(auto, unfolding(crate::specs::Comments::comment))]
pub fn comment(text: &[u8], at: usize) -> Lexed
    requires { at + 3 ≤ length text.now }
    ensures value { result ≡ comment text.now at }
    ensures sound { IsSound text.now at result }
{
    let to = run_end(text, Run::Until(b')'), at + 3);
    if stands(text, b')', to) {
        Ok((Token::Passed, to + 1))
    } else {
        Err(Fault::new(UNCLOSED_COMMENT, text.len()))
    }
}

/// Whether white space and `#` comments are ignored outside classes.
pub fn is_extended(flags: LexFlags) -> bool
    ensures { result ≡ is_extended flags }
{
    flags.extended || flags.extended_more
}

/// Whether the byte is white space that EXTENDED ignores.
fn is_white(flags: LexFlags, c: u8) -> bool
    ensures { result ≡ is_white flags c }
{
    (9 <= c && c <= 13) || c == b' ' || (c == 0x85 && !flags.utf)
}

/// Whether white space of one byte that EXTENDED ignores stands at the place.
fn stands_white(text: &[u8], flags: LexFlags, i: usize) -> bool
    ensures value { result ≡ passes_at text.now (is_white flags) i }
    ensures within { IsTrue result → i < length text.now }
{
    match byte(text, i) {
        Some(c) => is_white(flags, c),
        None => false,
    }
}

/// Whether U+200E or U+200F begins at the place, in UTF-8.
fn begins_mark(text: &[u8], i: usize) -> bool
    requires { i ≤ length text.now }
    ensures value { result ≡ begins_mark text.now i }
    ensures within { IsTrue result → i + 3 ≤ length text.now }
{
    begins(text, b"\xE2\x80\x8E", i) || begins(text, b"\xE2\x80\x8F", i)
}

/// Whether U+2028 or U+2029 begins at the place, in UTF-8.
fn begins_separator(text: &[u8], i: usize) -> bool
    requires { i ≤ length text.now }
    ensures value { result ≡ begins_separator text.now i }
    ensures within { IsTrue result → i + 3 ≤ length text.now }
{
    begins(text, b"\xE2\x80\xA8", i) || begins(text, b"\xE2\x80\xA9", i)
}

/// How many bytes the white space character past ASCII has that EXTENDED ignores in UTF and that begins at the place; 0
/// where none does.
fn wide_len(text: &[u8], i: usize) -> usize
    requires { i ≤ length text.now }
    ensures value { result ≡ wide_len text.now i }
    ensures within { i + result ≤ length text.now }
{
    // U+0085
    if begins(text, b"\xC2\x85", i) {
        2
    } else if begins_mark(text, i) {
        3
    } else if begins_separator(text, i) {
        3
    } else {
        0
    }
}

/// How many bytes the white space character has that EXTENDED ignores and that begins at the place; 0 where none does.
fn white_len(text: &[u8], flags: LexFlags, i: usize) -> usize
    requires { i ≤ length text.now }
    ensures value { result ≡ white_len text.now flags i }
    ensures within { i + result ≤ length text.now }
{
    if stands_white(text, flags, i) {
        1
    } else if flags.utf {
        wide_len(text, i)
    } else {
        0
    }
}

/// Past one white space character or one comment from `#` on; the place itself where neither stands there.
#[tactic(auto, unfolding(crate::specs::Comments::blank_end))]
pub fn blank_end(text: &[u8], flags: LexFlags, i: usize) -> usize
    requires { i ≤ length text.now }
    ensures value { result ≡ blank_end text.now flags i }
    ensures past { i ≤ result }
    ensures within { result ≤ length text.now }
{
    let white = white_len(text, flags, i);
    if white > 0 {
        i + white
    } else if stands(text, b'#', i) {
        line_end(text, flags, i + 1)
    } else {
        i
    }
}

/// Past all white space and all `#` comments from the place on.
#[tactic(auto, using(crate::proofs::Places::skip_here, crate::proofs::Places::skip_later, crate::proofs::Places::skip_all), unfolding(crate::specs::Comments::blanks_end))]
pub fn blanks_end(text: &[u8], flags: LexFlags, from: usize) -> usize
    requires { from ≤ length text.now }
    ensures value { result ≡ blanks_end text.now flags from }
    ensures past { from ≤ result }
    ensures within { result ≤ length text.now }
{
    let mut i = from;
    for _turn in from..text.len() {
        let next = blank_end(text, flags, i);
        if next == i {
            return i;
        }
        i = next;
    }
    i
}
