//! The conventions of newlines: their names, their texts, and the newlines at a place.
ghost use Rattle.std.specs.Prelude.{◌≡◌, ◌≤◌, ◌||◌, ◌∷◌, [], true, false, length, if◌then◌else◌};
ghost use Rattle.std.specs.Str.{bytes_eq, str_eq_ignore_ascii_case};
ghost use Rattle.byte_lanes.specs.Newlines.{newline_len, newline_before_len, longest_before, any_crlf_texts};
ghost use Rattle.byte_lanes.specs.Newlines.{any_texts, any_utf_texts, stands_before};
ghost use Rattle.pat_tree.specs.Newlines.{end_kind, break_kind, newline_named, newline_in_any_case, longest_of};

use crate::options::{Bsr, Newline};
use byte_lanes::EndKind;

impl Newline {
    /// The convention of a name in capital letters: CR, LF, CRLF, ANYCRLF, ANY or NUL (pcre2pattern, "Newline
    /// conventions").
    pub fn by_name(name: &[u8]) -> Option<Newline>
        ensures { result ≡ newline_named name.now }
    {
        by_name(name, false)
    }

    /// The convention of a name in any case of its letters (pcre2grep, "OPTIONS", `--newline`).
    pub fn by_name_in_any_case(name: &[u8]) -> Option<Newline>
        ensures { result ≡ newline_in_any_case name.now }
    {
        by_name(name, true)
    }

    /// The texts that end a line. With `utf` any Unicode newline is one in UTF-8, else one of single bytes.
    pub fn end_kind(self, utf: bool) -> EndKind
        ensures { result ≡ end_kind self utf }
    {
        match self {
            Newline::Cr => EndKind::Cr,
            Newline::Lf => EndKind::Lf,
            Newline::CrLf => EndKind::CrLf,
            Newline::AnyCrLf => EndKind::AnyCrLf,
            Newline::Any if utf => EndKind::AnyUtf,
            Newline::Any => EndKind::Any,
            Newline::Nul => EndKind::Nul,
        }
    }
}

impl Bsr {
    /// The texts of `\R` (pcre2pattern, "Newline sequences"). `utf` as for a newline.
    pub fn end_kind(self, utf: bool) -> EndKind
        ensures { result ≡ break_kind self utf }
    {
        match self {
            Bsr::Unicode if utf => EndKind::AnyUtf,
            Bsr::Unicode => EndKind::Any,
            Bsr::AnyCrLf => EndKind::AnyCrLf,
        }
    }
}

/// Whether a name is this one.
fn is_named(name: &[u8], known: &[u8], any_case: bool) -> bool
    ensures { result ≡ (if any_case then str_eq_ignore_ascii_case name.now known.now
        else bytes_eq name.now known.now) }
{
    if any_case {
        name.eq_ignore_ascii_case(known)
    } else {
        name == known
    }
}

fn by_name(name: &[u8], any_case: bool) -> Option<Newline>
    ensures { result ≡ (if any_case then newline_in_any_case name.now else newline_named name.now) }
{
    if is_named(name, b"CR", any_case) {
        Some(Newline::Cr)
    } else if is_named(name, b"LF", any_case) {
        Some(Newline::Lf)
    } else if is_named(name, b"CRLF", any_case) {
        Some(Newline::CrLf)
    } else if is_named(name, b"ANYCRLF", any_case) {
        Some(Newline::AnyCrLf)
    } else if is_named(name, b"ANY", any_case) {
        Some(Newline::Any)
    } else if is_named(name, b"NUL", any_case) {
        Some(Newline::Nul)
    } else {
        None
    }
}

/// The length of the newline that begins at a place, the longest of the convention; 0 where none does. With `utf`
/// U+0085, U+2028 and U+2029 are newlines of `Any` in UTF-8, else the byte 85 alone (pcre2pattern, "Newline
/// conventions"; pcre2api, "Newlines").
pub fn newline_at(bytes: &[u8], at: usize, n: Newline, utf: bool) -> usize
    requires { at ≤ length bytes.now }
    ensures { result ≡ newline_len (end_kind n utf) bytes.now at }
{
    byte_lanes::newline_at(bytes, at, n.end_kind(utf))
}

/// The length of the newline that ends at a place, the longest of the convention; 0 where none does. `utf` as for
/// `newline_at`.
pub fn newline_before(bytes: &[u8], at: usize, n: Newline, utf: bool) -> usize
    requires { at ≤ length bytes.now }
    ensures { result ≡ newline_before_len (end_kind n utf) bytes.now at }
{
    match n {
        Newline::Cr => longest(false, false, ends(bytes, at, b"\r")),
        Newline::Lf => longest(false, false, ends(bytes, at, b"\n")),
        Newline::Nul => longest(false, false, ends(bytes, at, b"\0")),
        Newline::CrLf => longest(false, ends(bytes, at, b"\r\n"), false),
        Newline::AnyCrLf => any_crlf_before(bytes, at),
        Newline::Any if utf => any_utf_before(bytes, at),
        Newline::Any => any_before(bytes, at),
    }
}

fn any_crlf_before(bytes: &[u8], at: usize) -> usize
    requires { at ≤ length bytes.now }
    ensures { result ≡ longest_before any_crlf_texts bytes.now at }
{
    let crlf = ends(bytes, at, b"\r\n");
    let cr = ends(bytes, at, b"\r");
    let lf = ends(bytes, at, b"\n");
    longest(false, crlf, cr | lf)
}

fn any_before(bytes: &[u8], at: usize) -> usize
    requires { at ≤ length bytes.now }
    ensures { result ≡ longest_before any_texts bytes.now at }
{
    let crlf = ends(bytes, at, b"\r\n");
    let nel = ends(bytes, at, b"\x85");
    longest(false, crlf, control_before(bytes, at) | nel)
}

#[tactic(auto, using(crate::proofs::Lines::utf_before))]
fn any_utf_before(bytes: &[u8], at: usize) -> usize
    requires { at ≤ length bytes.now }
    ensures { result ≡ longest_before any_utf_texts bytes.now at }
{
    // U+2028, U+2029 and U+0085 in UTF-8
    let line = ends(bytes, at, b"\xe2\x80\xa8");
    let paragraph = ends(bytes, at, b"\xe2\x80\xa9");
    let crlf = ends(bytes, at, b"\r\n");
    let nel = ends(bytes, at, b"\xc2\x85");
    longest(line | paragraph, crlf | nel, control_before(bytes, at))
}

/// Whether LF, VT, FF or CR stands there.
fn control_before(bytes: &[u8], at: usize) -> bool
    requires { at ≤ length bytes.now }
    ensures { result ≡ (stands_before (10 ∷ []) bytes.now at || stands_before (11 ∷ []) bytes.now at
        || stands_before (12 ∷ []) bytes.now at || stands_before (13 ∷ []) bytes.now at) }
{
    ends(bytes, at, b"\n")
        | ends(bytes, at, b"\x0b")
        | ends(bytes, at, b"\x0c")
        | ends(bytes, at, b"\r")
}

/// Whether a text stands just before the place.
#[inline(always)]
fn ends(bytes: &[u8], at: usize, text: &[u8]) -> bool
    requires { at ≤ length bytes.now }
    ensures { result ≡ stands_before text.now bytes.now at }
{
    bytes[..at].ends_with(text)
}

/// The greatest length of which a newline stands there.
#[inline(always)]
fn longest(three: bool, two: bool, one: bool) -> usize
    ensures { result ≡ longest_of three two one }
{
    if three {
        3
    } else if two {
        2
    } else if one {
        1
    } else {
        0
    }
}
