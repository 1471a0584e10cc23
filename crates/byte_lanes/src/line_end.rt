// Newlines of a kind, and the first at or past a place.
ghost use Rattle.std.specs.Prelude.{◌≡◌, ◌+◌, ◌<◌, ◌≤◌, ◌∷◌, [], nat_lt, length};
ghost use Rattle.byte_lanes.specs.Places.{IsLeast, least_from};
ghost use Rattle.byte_lanes.specs.Newlines.{newline_len, has_crlf, longest, stands, crlf_texts, any_crlf_texts};
ghost use Rattle.byte_lanes.specs.Newlines.{any_texts, any_utf_texts};

use crate::lanes::{at_least, at_most, both, either, equal_to, load};
use crate::scan;
use crate::scan::Probe;
use memchr::memchr;
use std::simd::prelude::*;

/// Which texts end a line: a newline convention (pcre2pattern, "Newline conventions"), where any Unicode newline
/// comes in two kinds, for bytes and for UTF-8 (pcre2api, "Newlines").
#[derive(Clone, Copy, Debug, PartialEq, Eq)]
pub enum EndKind {
    /// CR.
    Cr,
    /// LF.
    Lf,
    /// CR and LF, together.
    CrLf,
    /// CR and LF together, or either alone.
    AnyCrLf,
    /// CR and LF together, LF, VT, FF, CR, and byte 85 (U+0085). U+2028 and U+2029 are no single bytes.
    Any,
    /// The same with U+0085, U+2028 and U+2029 as UTF-8 has them.
    AnyUtf,
    /// A zero byte.
    Nul,
}

impl EndKind {
    /// Whether CR and LF together are one of its newlines.
    pub fn has_crlf(self) -> bool
        ensures { result ≡ has_crlf self }
    {
        match self {
            EndKind::CrLf | EndKind::AnyCrLf | EndKind::Any | EndKind::AnyUtf => true,
            EndKind::Cr | EndKind::Lf | EndKind::Nul => false,
        }
    }
}

/// A newline of `len` bytes, 1 to 3, that begins at the place `at`. Where there is none, `at` is the length of
/// the bytes and `len` is 0.
#[derive(Clone, Copy, Debug, PartialEq, Eq)]
pub struct LineEnd {
    pub at: usize,
    pub len: usize,
}

/// The first newline of the kind that begins at or past `from`, which is at most the length. Of the texts that
/// stand at that place the longest is taken, so CR and LF together are one newline where the kind has it.
pub fn find_line_end(bytes: &[u8], from: usize, kind: EndKind) -> LineEnd
    requires { from ≤ length bytes.now }
    ensures least { IsLeast (λ k. 0 < newline_len kind bytes.now k)
        from (length bytes.now) result.at }
    ensures value { result.at
        ≡ least_from (λ k. nat_lt 0 (newline_len kind bytes.now k)) from (length bytes.now) }
    ensures len { result.len ≡ newline_len kind bytes.now result.at }
{
    let at = place_of(bytes, from, kind);
    LineEnd {
        at,
        len: newline_at(bytes, at, kind),
    }
}

// The place of that newline, or the length.
#[inline(always)]
fn place_of(bytes: &[u8], from: usize, kind: EndKind) -> usize
    requires { from ≤ length bytes.now }
    ensures { IsLeast (λ k. 0 < newline_len kind bytes.now k) from (length bytes.now) result }
{
    match kind {
        EndKind::Cr => one_byte(bytes, from, 13),
        EndKind::Lf => one_byte(bytes, from, 10),
        EndKind::Nul => one_byte(bytes, from, 0),
        EndKind::CrLf => scan::least(&CrLf { bytes }, from, bytes.len()),
        EndKind::AnyCrLf => scan::least(&AnyCrLf { bytes }, from, bytes.len()),
        EndKind::Any => scan::least(&Any { bytes }, from, bytes.len()),
        EndKind::AnyUtf => scan::least(&AnyUtf { bytes }, from, bytes.len()),
    }
}

// A search for the newlines that are one byte.
fn one_byte(bytes: &[u8], from: usize, byte: u8) -> usize
    requires { from ≤ length bytes.now }
    ensures { IsLeast (λ k. 0 < longest ((byte ∷ []) ∷ []) bytes.now k)
        from (length bytes.now) result }
{
    match memchr(byte, &bytes[from..]) {
        Some(k) => from + k,
        None => bytes.len(),
    }
}

/// The length of the longest newline of the kind that begins at the place, or 0. None begins past the last byte.
#[inline(always)]
pub fn newline_at(bytes: &[u8], at: usize, kind: EndKind) -> usize
    ensures { result ≡ newline_len kind bytes.now at }
{
    match kind {
        EndKind::Cr => single(bytes, at, 13),
        EndKind::Lf => single(bytes, at, 10),
        EndKind::Nul => single(bytes, at, 0),
        EndKind::CrLf => crlf_at(bytes, at),
        EndKind::AnyCrLf => any_crlf_at(bytes, at),
        EndKind::Any => any_at(bytes, at),
        EndKind::AnyUtf => any_utf_at(bytes, at),
    }
}

// The same for the newline of one byte.
#[inline(always)]
fn single(bytes: &[u8], at: usize, byte: u8) -> usize
    ensures { result ≡ longest ((byte ∷ []) ∷ []) bytes.now at }
{
    if stands1(bytes, at, byte) { 1 } else { 0 }
}

#[inline(always)]
fn crlf_at(bytes: &[u8], at: usize) -> usize
    ensures { result ≡ longest crlf_texts bytes.now at }
{
    if stands2(bytes, at, 13, 10) { 2 } else { 0 }
}

#[inline(always)]
fn any_crlf_at(bytes: &[u8], at: usize) -> usize
    ensures { result ≡ longest any_crlf_texts bytes.now at }
{
    let two = stands2(bytes, at, 13, 10);
    let cr = stands1(bytes, at, 13);
    let lf = stands1(bytes, at, 10);
    if two {
        2
    } else if cr || lf {
        1
    } else {
        0
    }
}

#[inline(always)]
fn any_at(bytes: &[u8], at: usize) -> usize
    ensures { result ≡ longest any_texts bytes.now at }
{
    let two = stands2(bytes, at, 13, 10);
    let lf = stands1(bytes, at, 10);
    let vt = stands1(bytes, at, 11);
    let ff = stands1(bytes, at, 12);
    let cr = stands1(bytes, at, 13);
    let nel = stands1(bytes, at, 133);
    if two {
        2
    } else if lf || vt || ff || cr || nel {
        1
    } else {
        0
    }
}

#[inline(always)]
fn any_utf_at(bytes: &[u8], at: usize) -> usize
    ensures { result ≡ longest any_utf_texts bytes.now at }
{
    let ls = stands3(bytes, at, 226, 128, 168);
    let ps = stands3(bytes, at, 226, 128, 169);
    let two = stands2(bytes, at, 13, 10);
    let nel = stands2(bytes, at, 194, 133);
    let lf = stands1(bytes, at, 10);
    let vt = stands1(bytes, at, 11);
    let ff = stands1(bytes, at, 12);
    let cr = stands1(bytes, at, 13);
    if ls || ps {
        3
    } else if two || nel {
        2
    } else if lf || vt || ff || cr {
        1
    } else {
        0
    }
}

// Whether one, two or three bytes stand at the place.
#[tactic(auto, using(crate::proofs::lemmas::NewlineLemmas::stands_nil, crate::proofs::lemmas::NewlineLemmas::stands_past, crate::proofs::lemmas::NewlineLemmas::stands_other, crate::proofs::lemmas::NewlineLemmas::stands_here))]
#[inline(always)]
fn stands1(bytes: &[u8], at: usize, a: u8) -> bool
    ensures { result ≡ stands (a ∷ []) bytes.now at }
{
    if at >= bytes.len() {
        return false;
    }
    if bytes[at] != a {
        return false;
    }
    true
}

#[tactic(auto, using(crate::proofs::lemmas::NewlineLemmas::stands_nil, crate::proofs::lemmas::NewlineLemmas::stands_past, crate::proofs::lemmas::NewlineLemmas::stands_other, crate::proofs::lemmas::NewlineLemmas::stands_here))]
#[inline(always)]
fn stands2(bytes: &[u8], at: usize, a: u8, b: u8) -> bool
    ensures { result ≡ stands (a ∷ (b ∷ [])) bytes.now at }
{
    if at >= bytes.len() {
        return false;
    }
    if bytes[at] != a {
        return false;
    }
    stands1(bytes, at + 1, b)
}

#[tactic(auto, using(crate::proofs::lemmas::NewlineLemmas::stands_nil, crate::proofs::lemmas::NewlineLemmas::stands_past, crate::proofs::lemmas::NewlineLemmas::stands_other, crate::proofs::lemmas::NewlineLemmas::stands_here))]
#[inline(always)]
fn stands3(bytes: &[u8], at: usize, a: u8, b: u8, c: u8) -> bool
    ensures { result ≡ stands (a ∷ (b ∷ (c ∷ []))) bytes.now at }
{
    if at >= bytes.len() {
        return false;
    }
    if bytes[at] != a {
        return false;
    }
    stands2(bytes, at + 1, b, c)
}

// The searches. Each looks for the first bytes of its newlines, and confirms what it finds.
#[derive(Drop)]
struct CrLf<'a> {
    bytes: &'a [u8],
}

impl<'a> Probe for CrLf<'a> {
    ghost places = { λ s. length s.bytes.now };

    ghost hit = { λ s k. 0 < longest crlf_texts s.bytes.now k };

    #[inline(always)]
    fn lanes(&self, i: usize) -> u8x32 {
        equal_to(load(self.bytes, i), 13)
    }

    #[inline(always)]
    fn confirm(&self, i: usize) -> bool {
        crlf_at(self.bytes, i) > 0
    }
}

#[derive(Drop)]
struct AnyCrLf<'a> {
    bytes: &'a [u8],
}

impl<'a> Probe for AnyCrLf<'a> {
    ghost places = { λ s. length s.bytes.now };

    ghost hit = { λ s k. 0 < longest any_crlf_texts s.bytes.now k };

    #[inline(always)]
    fn lanes(&self, i: usize) -> u8x32 {
        let v = load(self.bytes, i);
        either(equal_to(v, 13), equal_to(v, 10))
    }

    #[inline(always)]
    fn confirm(&self, i: usize) -> bool {
        any_crlf_at(self.bytes, i) > 0
    }
}

#[derive(Drop)]
struct Any<'a> {
    bytes: &'a [u8],
}

impl<'a> Probe for Any<'a> {
    ghost places = { λ s. length s.bytes.now };

    ghost hit = { λ s k. 0 < longest any_texts s.bytes.now k };

    #[inline(always)]
    fn lanes(&self, i: usize) -> u8x32 {
        let v = load(self.bytes, i);
        either(both(at_least(v, 10), at_most(v, 13)), equal_to(v, 133))
    }

    #[inline(always)]
    fn confirm(&self, i: usize) -> bool {
        any_at(self.bytes, i) > 0
    }
}

#[derive(Drop)]
struct AnyUtf<'a> {
    bytes: &'a [u8],
}

impl<'a> Probe for AnyUtf<'a> {
    ghost places = { λ s. length s.bytes.now };

    ghost hit = { λ s k. 0 < longest any_utf_texts s.bytes.now k };

    #[inline(always)]
    fn lanes(&self, i: usize) -> u8x32 {
        let v = load(self.bytes, i);
        let low = both(at_least(v, 10), at_most(v, 13));
        either(low, either(equal_to(v, 194), equal_to(v, 226)))
    }

    #[inline(always)]
    fn confirm(&self, i: usize) -> bool {
        any_utf_at(self.bytes, i) > 0
    }
}
