//! The start places of a search, in order (pcre2api, "Matching a pattern: the traditional function").
ghost use Rattle.std.specs.Prelude.{◌≡◌, ◌≤◌, ◌<◌, ◌+◌, ◌&&◌, false, ℕ, min, length, IfSome, IsTrue, None, Some};
ghost use Rattle.std.specs.Option.{option_copied};
ghost use Rattle.byte_lanes.specs.Places.{IsLeast};
ghost use Rattle.uni_text.specs.Characters as text;
ghost use Rattle.match_items.specs.Subjects.{IsPlace, IsTextPlace};
ghost use Rattle.pat_needs.specs.Texts.{sets_of, Stands};
ghost use Rattle.frame_state.specs.Answer.{signal_of, IsSkip};
ghost use Rattle.match_starts.specs.Asked.{passed_over};
ghost use Rattle.match_drive.specs.BeginText.{StandsBehind};
ghost use Rattle.ordered_search.specs.Places as places;
ghost use Rattle.ordered_search.specs.Places.{up_to};
ghost use Rattle.match_drive.specs.Rest.{IsLeadUsed, IsPassedAlways, IsNextTriedAlways, behind};
ghost use Rattle.match_drive.specs.Rest.{AreRefused, FailBeforeAlways, FindsAlike, IsNextAlways};

use crate::driven::Driven;
use byte_lanes::{ByteSet, EndKind, find_line_end, newline_at};
use frame_machine::Signal;
use match_starts::first_in;
use pat_needs::{BeginText, ByteText};
use pat_tree::PartialMode;
use uni_text::char_at;

/// Whether a CRLF is passed whole at a place: where it is a newline, and the pattern names no half of it.
fn passes_crlf<S: Driven>(on: &S, at: usize) -> bool
    requires fits { S.fits on.now }
    requires at { IsPlace (S.asked on.now passed_over).options
        (S.asked on.now passed_over).subject at }
    ensures { result ≡ places.passes_crlf (S.asked on.now passed_over) at }
{
    let kind = on.options().newline.end_kind(on.options().utf);
    kind.has_crlf() && newline_at(on.subject(), at, EndKind::CrLf) > 0 && !on.names_crlf()
}

/// The place after another, if there is one.
pub(crate) fn next_place<S: Driven>(on: &S, at: usize) -> Option<usize>
    requires fits { S.fits on.now }
    requires at { IsTextPlace (S.asked on.now passed_over).options
        (S.asked on.now passed_over).subject at }
    ensures value { result ≡ places.next_place (S.asked on.now passed_over) at }
    ensures place { IfSome result
        (IsTextPlace (S.asked on.now passed_over).options (S.asked on.now passed_over).subject) }
{
    if at == on.subject().len() {
        return None;
    }
    if passes_crlf(on, at) {
        Some(at + 2)
    } else {
        Some(char_at(on.subject(), at, on.options().utf).1)
    }
}

/// The last place that may be tried: the start alone in an anchored search, or under FIRSTLINE where the first newline
/// begins (pcre2api, "Option bits for pcre2_compile()", PCRE2_FIRSTLINE).
pub(crate) fn last_place<S: Driven>(on: &S) -> usize
    requires { S.fits on.now }
    ensures value { result ≡ places.last_place (S.asked on.now passed_over) }
    ensures low { (S.asked on.now passed_over).start ≤ result }
    ensures within { result ≤ length (S.asked on.now passed_over).subject }
{
    let start = on.start();
    if on.options().anchored || on.matching().anchored {
        return start;
    }
    if !on.options().firstline {
        return on.subject().len();
    }
    let kind = on.options().newline.end_kind(on.options().utf);
    find_line_end(on.subject(), start, kind).at
}

/// A place that is not past the last one.
fn up_to(last: usize, place: Option<usize>) -> Option<usize>
    ensures value { result ≡ up_to last place }
    ensures within { IfSome result (λ to. to ≤ last) }
{
    match place {
        Some(at) if at <= last => Some(at),
        _ => None,
    }
}

/// The place that follows one that failed (pcre2pattern, "Backtracking control").
pub(crate) fn place_after<S: Driven>(
    on: &S,
    at: usize,
    signal: Signal,
    last: usize,
) -> Option<usize>
    requires fits { S.fits on.now }
    requires at { IsTextPlace (S.asked on.now passed_over).options
        (S.asked on.now passed_over).subject at }
    requires skip { IsSkip (S.asked on.now passed_over).options
        (S.asked on.now passed_over).subject signal }
    requires last { last ≡ places.last_place (S.asked on.now passed_over) }
    ensures value { result ≡ places.place_after (S.asked on.now passed_over) at (signal_of signal) }
    ensures place { IfSome result
        (IsTextPlace (S.asked on.now passed_over).options (S.asked on.now passed_over).subject) }
    ensures later { IfSome result (λ to. at < to) }
    ensures within { IfSome result (λ to. to ≤ last) }
{
    match signal {
        Signal::Commit => None,
        Signal::Skip(to) if at < to => up_to(last, Some(to)),
        _ => up_to(last, next_place(on, at)),
    }
}

/// The bytes that every match begins with, where the search goes by them (pcre2api, "Option bits for pcre2_compile()",
/// PCRE2_NO_START_OPTIMIZE).
fn lead_used<S: Driven>(on: &S) -> Option<&ByteSet>
    requires { S.fits on.now }
    ensures { IsLeadUsed (S.asked on.now passed_over) (option_copied result) }
{
    if on.options().no_start_optimize {
        None
    } else {
        on.lead()
    }
}

/// Whether a place is left out, as no match begins with the byte there.
pub(crate) fn is_excluded<S: Driven>(on: &S, at: usize) -> bool
    requires fits { S.fits on.now }
    requires at { IsPlace (S.asked on.now passed_over).options
        (S.asked on.now passed_over).subject at }
    ensures { result ≡ places.is_excluded (S.asked on.now passed_over) at }
{
    let Some(set) = lead_used(on) else {
        return false;
    };
    match on.subject().get(at) {
        Some(byte) => !set.has(*byte),
        None => matches!(on.matching().partial, PartialMode::Off),
    }
}

/// The place behind the places from one up to another, which all fail: one further where the last of them is the CR of
/// a CRLF that is passed whole.
fn behind<S: Driven>(on: &S, from: usize, to: usize) -> usize
    requires fits { S.fits on.now }
    requires ordered { from ≤ to }
    requires within { to ≤ length (S.asked on.now passed_over).subject }
    ensures { result ≡ behind (S.asked on.now passed_over) from to }
{
    if from < to && passes_crlf(on, to - 1) {
        to + 1
    } else {
        to
    }
}

/// The end of the bytes at which a match may begin.
fn bytes_end(last: usize, length: usize) -> usize
    requires { last ≤ length }
    ensures { result ≡ min (last + 1) length }
{
    if last < length { last + 1 } else { length }
}

/// Whether a character begins at a byte, as one does outside UTF at each, and in UTF where the byte doesn't continue
/// one (RFC 3629, section 3).
fn is_place(bytes: &[u8], at: usize, utf: bool) -> bool
    requires { at < length bytes.now }
    ensures place { IsTrue result → text.IsPlace utf bytes.now at }
    ensures inside { result ≡ false → text.IsPlace utf bytes.now at → ⊥ }
{
    !utf || bytes[at] < 0x80 || bytes[at] >= 0xC0
}

/// The first place from one on, and before another, at which a character begins, or else the other.
fn place_from(bytes: &[u8], from: usize, to: usize, utf: bool) -> usize
    requires ordered { from ≤ to }
    requires within { to ≤ length bytes.now }
    ensures low { from ≤ result }
    ensures high { result ≤ to }
    ensures before { (k : ℕ) → from ≤ k → k < result → text.IsPlace utf bytes.now k → ⊥ }
    ensures found { result < to → text.IsPlace utf bytes.now result }
{
    let mut at = from;
    'bytes: while at < to && !is_place(bytes, at, utf) {
        at += 1;
    }
    at
}

/// The first place from one on, and before another, at which a text stands, or else the other.
fn first_text(bytes: &[u8], from: usize, to: usize, text: &ByteText) -> usize
    requires ordered { from ≤ to }
    requires within { to ≤ length bytes.now }
    ensures { IsLeast (Stands (sets_of text.now) bytes.now) from to result }
{
    // Among many places at which it stands the first one is most often it.
    if from < to && text.stands(bytes, from) {
        return from;
    }
    // A text has three bytes at most: one that stands before `to` ends here.
    let end = if bytes.len() - to > 2 {
        to + 2
    } else {
        bytes.len()
    };
    text.find_from(&bytes[..end], from).min(to)
}

/// The first place from one on, and before another, behind which a text stands at its distance, or else the other.
fn first_begin(bytes: &[u8], from: usize, to: usize, begin: &BeginText) -> usize
    requires ordered { from ≤ to }
    requires within { to ≤ length bytes.now }
    ensures { IsLeast (StandsBehind begin.now bytes.now) from to result }
{
    let distance = begin.distance as usize;
    if bytes.len() - from <= distance {
        return to;
    }
    let end = to.min(bytes.len() - distance);
    let found = first_text(bytes, from + distance, end + distance, &begin.text);
    if found < end + distance {
        found - distance
    } else {
        to
    }
}

/// The first place from one on, and before another, at which what a match begins with may stand, or else the other.
fn first_start<S: Driven>(on: &S, from: usize, to: usize) -> usize
    requires fits { S.fits on.now }
    requires ordered { from ≤ to }
    requires within { to ≤ length (S.asked on.now passed_over).subject }
    ensures low { from ≤ result }
    ensures high { result ≤ to }
    ensures before { FailBeforeAlways (S.asked on.now passed_over) from result }
{
    if let Some(begin) = on.begin() {
        return first_begin(on.subject(), from, to, begin);
    }
    match lead_used(on) {
        Some(set) => first_in(on.subject(), from, to, set),
        None => from,
    }
}

/// Goes past places that fail since no match begins with the bytes there, by lanes.
fn pass<S: Driven>(on: &S, from: usize, last: usize) -> usize
    requires fits { S.fits on.now }
    requires from { from ≤ last }
    requires place { IsTextPlace (S.asked on.now passed_over).options
        (S.asked on.now passed_over).subject from }
    requires last { last ≡ places.last_place (S.asked on.now passed_over) }
    ensures passed { IsPassedAlways (S.asked on.now passed_over) from result }
    ensures place { result ≤ last → IsTextPlace (S.asked on.now passed_over).options
        (S.asked on.now passed_over).subject result }
{
    let subject = on.subject();
    let end = bytes_end(last, subject.len());
    let found = first_start(on, from, end);
    // In UTF it may stand inside a character.
    behind(on, from, place_from(subject, found, end, on.options().utf))
}

/// The place that follows those from one up to another, which are known to fail.
fn past_refused<S: Driven>(on: &S, from: usize, to: usize, last: usize) -> Option<usize>
    requires fits { S.fits on.now }
    requires from { from ≤ last }
    requires fail { AreRefused (S.asked on.now passed_over) from to }
    requires last { last ≡ places.last_place (S.asked on.now passed_over) }
    ensures same { FindsAlike (S.asked on.now passed_over) from result }
    ensures place { IfSome result
        (IsTextPlace (S.asked on.now passed_over).options (S.asked on.now passed_over).subject) }
    ensures later { IfSome result (λ next. from < next) }
    ensures within { IfSome result (λ next. next ≤ last) }
{
    if to >= last {
        return None;
    }
    up_to(last, Some(behind(on, from, to + 1)))
}

/// The first place from one on that is tried.
pub(crate) fn next_tried<S: Driven>(on: &S, from: Option<usize>, last: usize) -> Option<usize>
    requires fits { S.fits on.now }
    requires from { IfSome from (λ p. p ≤ last) }
    requires place { IfSome from
        (IsTextPlace (S.asked on.now passed_over).options (S.asked on.now passed_over).subject) }
    requires last { last ≡ places.last_place (S.asked on.now passed_over) }
    ensures tried { IsNextTriedAlways (S.asked on.now passed_over) from result }
    ensures place { IfSome result
        (IsTextPlace (S.asked on.now passed_over).options (S.asked on.now passed_over).subject) }
{
    let mut next = from;
    'places: while let Some(at) = next {
        if at > 0 && on.stands_at_begin() {
            return None;
        }
        let place = pass(on, at, last);
        if place > last {
            return None;
        }
        if is_excluded(on, place) {
            next = up_to(last, next_place(on, place));
        } else {
            let Some(to) = on.refused_to(place) else {
                return Some(place);
            };
            next = past_refused(on, place, to, last);
        }
    }
    None
}

/// The place that follows one that failed, past the places that fail with it.
pub(crate) fn place_past<S: Driven>(on: &S, at: usize, signal: Signal, last: usize) -> Option<usize>
    requires fits { S.fits on.now }
    requires at { at ≤ last }
    requires place { IsTextPlace (S.asked on.now passed_over).options
        (S.asked on.now passed_over).subject at }
    requires skip { IsSkip (S.asked on.now passed_over).options
        (S.asked on.now passed_over).subject signal }
    requires last { last ≡ places.last_place (S.asked on.now passed_over) }
    ensures same { IsNextAlways (S.asked on.now passed_over) at (signal_of signal) result }
    ensures place { IfSome result
        (IsTextPlace (S.asked on.now passed_over).options (S.asked on.now passed_over).subject) }
    ensures later { IfSome result (λ to. at < to) }
    ensures within { IfSome result (λ to. to ≤ last) }
{
    if !matches!(signal, Signal::Exhausted) {
        return place_after(on, at, signal, last);
    }
    let to = on.fails_to(at);
    if to == at {
        return place_after(on, at, signal, last);
    }
    // The subject's end is left to a try of its own.
    let end = bytes_end(to.min(last), on.subject().len());
    up_to(last, Some(behind(on, at, end)))
}
