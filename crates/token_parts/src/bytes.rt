//! How the bytes of a pattern are read. A place is a number of bytes from the pattern's begin.
ghost use Rattle.std.specs.Prelude.{◌≡◌, ◌<◌, ◌≤◌, ◌+◌, length, slice_get, drop, nat_eq, IsTrue, IfSome};
ghost use Rattle.std.specs.Char.{is_ascii_digit, is_ascii_alphabetic};
ghost use Rattle.std.specs.List.{starts_with};
ghost use Rattle.token_parts.specs.Bytes.{passes_at, stands, run_end, numeral};
ghost use Rattle.token_parts.specs.Runs.{passes};

use byte_lanes::{digit_value, number};

/// What the bytes of a run have in common.
#[derive(Clone, Copy)]
pub enum Run {
    /// Digits of this radix, at most 36, in either case.
    Digits(u32),
    /// Letters, digits and underscores.
    Word,
    /// The letters of options.
    Options,
    /// All bytes but this one.
    Until(u8),
}

impl Run {
    fn passes(self, c: u8) -> bool
        ensures { result ≡ passes self c }
    {
        match self {
            Run::Digits(radix) => digit_value(c) < radix,
            Run::Word => c.is_ascii_alphanumeric() || c == b'_',
            Run::Options => matches!(c, b'i' | b'm' | b's' | b'x' | b'n' | b'J' | b'U'),
            Run::Until(end) => c != end,
        }
    }
}

/// The byte at the place, if it lies in the text.
pub fn byte(text: &[u8], i: usize) -> Option<u8>
    ensures value { result ≡ slice_get text.now i }
    ensures within { IfSome result (λ _. i < length text.now) }
{
    text.get(i).copied()
}

/// Whether this byte stands at the place. None stands past the text's end.
pub fn stands(text: &[u8], c: u8, i: usize) -> bool
    ensures value { result ≡ stands text.now c i }
    ensures within { IsTrue result → i < length text.now }
{
    match byte(text, i) {
        Some(d) => d == c,
        None => false,
    }
}

/// Whether a decimal digit stands at the place.
pub(crate) fn is_digit(text: &[u8], i: usize) -> bool
    ensures value { result ≡ passes_at text.now is_ascii_digit i }
    ensures within { IsTrue result → i < length text.now }
{
    match byte(text, i) {
        Some(c) => c.is_ascii_digit(),
        None => false,
    }
}

/// Whether an ASCII letter stands at the place. None stands past the text's end.
pub fn is_letter(text: &[u8], i: usize) -> bool
    ensures value { result ≡ passes_at text.now is_ascii_alphabetic i }
    ensures within { IsTrue result → i < length text.now }
{
    match byte(text, i) {
        Some(c) => c.is_ascii_alphabetic(),
        None => false,
    }
}

/// Whether the word begins at the place.
pub(crate) fn begins(text: &[u8], word: &[u8], i: usize) -> bool
    requires { i ≤ length text.now }
    ensures value { result ≡ starts_with nat_eq (drop i text.now) word.now }
    ensures within { IsTrue result → i + length word.now ≤ length text.now }
{
    text[i..].starts_with(word)
}

/// Where the run that begins at a place ends: the place itself where its byte isn't one of the run.
#[tactic(auto, using(crate::proofs::Runs::run_end_yes, crate::proofs::Runs::run_end_no, crate::proofs::Runs::run_end_all))]
pub fn run_end(text: &[u8], run: Run, from: usize) -> usize
    requires { from ≤ length text.now }
    ensures value { result ≡ run_end text.now (passes run) from }
    ensures past { from ≤ result }
    ensures within { result ≤ length text.now }
{
    for i in from..text.len() {
        if !run.passes(text[i]) {
            return i;
        }
    }
    text.len()
}

/// The number that the digits between two places write. Those past 4,294,967,295 count as 4,294,967,296.
#[tactic(auto, using(crate::proofs::Numerals::numeral_within, crate::proofs::Numerals::numeral_past), unfolding(crate::specs::Bytes::numeral))]
pub fn numeral(text: &[u8], radix: u32, from: usize, to: usize) -> u64
    requires order { from ≤ to }
    requires within { to ≤ length text.now }
    requires radix { radix ≤ 16 }
    requires one { 0 < radix }
    ensures { result ≡ numeral text.now radix from to }
{
    match number(&text[from..to], radix) {
        Some(n) => u64::from(n),
        None => LARGE,
    }
}

/// What numbers of more than 32 bits count as.
const LARGE: u64 = 4_294_967_296;
