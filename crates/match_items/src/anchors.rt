//! Simple assertions, and `\R`.
ghost use Rattle.std.specs.Prelude.{◌≡◌, ◌<◌, ◌≤◌, ◌||◌, true, false, length};
ghost use Rattle.match_items.specs.Subjects.{IsText, IsTextPlace};
ghost use Rattle.match_items.specs.Items as items;
ghost use Rattle.match_items.specs.Items.{after_break, break_reaches, holds, anchor_reaches, is_close, is_boundary};
ghost use Rattle.match_items.specs.Items.{is_word_at, next, previous};
ghost use Rattle.match_items.specs.Views.{bare_text, told};

use crate::view::{Held, Taken, View};
use pat_tree::{AnchorKind, Newline, newline_at, newline_before};
use uni_text::{char_at, char_before, is_word};

/// Tests `\R` at a place (pcre2pattern, "Newline sequences"). It reaches the subject's end where it
/// is tried there, and where it took a CR that is the last byte, which is told as taken
/// (pcre2partial).
///
/// Needs a subject of fewer than 4,294,967,295 bytes and a place in it; in UTF the subject must be
/// UTF-8, and a character must begin at the place.
pub fn break_step(view: &View<'_>, at: usize) -> Taken
    requires subject { IsText view.now.options.now view.now.subject.now }
    requires place { IsTextPlace view.now.options.now view.now.subject.now at }
    ensures { let g = bare_text view.now in result ≡ told (after_break g at) (break_reaches g at) }
{
    if at == view.subject.len() {
        return Taken::AtEnd;
    }
    match break_len(view, at) {
        0 => Taken::No,
        len => Taken::Took(at + len),
    }
}

/// The length of the newline sequence at a place, 0 where there is none.
fn break_len(view: &View<'_>, at: usize) -> usize
    requires subject { IsText view.now.options.now view.now.subject.now }
    requires place { IsTextPlace view.now.options.now view.now.subject.now at }
    ensures { result ≡ items.break_len (bare_text view.now) at }
{
    byte_lanes::newline_at(
        view.subject,
        at,
        view.options.bsr.end_kind(view.options.utf),
    )
}

/// Tests a simple assertion at a place, and tells whether it reaches the subject's end
/// (pcre2pattern, "Simple assertions", "Circumflex and dollar"; pcre2partial).
///
/// Needs a subject of fewer than 4,294,967,295 bytes and a place in it; in UTF the subject must be
/// UTF-8, and a character must begin at the place.
pub fn anchor(view: &View<'_>, kind: AnchorKind, at: usize) -> Held
    requires subject { IsText view.now.options.now view.now.subject.now }
    requires place { IsTextPlace view.now.options.now view.now.subject.now at }
    ensures holds { result.holds ≡ holds (bare_text view.now) kind at }
    ensures at_end { result.at_end ≡ anchor_reaches (bare_text view.now) kind at }
{
    let end = at == view.subject.len();
    match kind {
        AnchorKind::Caret { multi } => inside(caret(view, multi, at)),
        AnchorKind::Dollar { multi, end_only } => dollar(view, multi, end_only, at),
        AnchorKind::SubjectStart => inside(at == 0),
        AnchorKind::SubjectEnd => Held {
            holds: end,
            at_end: end,
        },
        AnchorKind::EndOrNewline => close(view, at),
        AnchorKind::StartGiven => inside(at == view.start),
        AnchorKind::Word { ucp } => Held {
            holds: is_boundary(view, ucp, at),
            at_end: end,
        },
        AnchorKind::NotWord { ucp } => Held {
            holds: !is_boundary(view, ucp, at),
            at_end: end,
        },
    }
}

/// An answer that does not reach the end.
fn inside(holds: bool) -> Held
    ensures holds { result.holds ≡ holds }
    ensures at_end { result.at_end ≡ false }
{
    Held {
        holds,
        at_end: false,
    }
}

/// `^`
fn caret(view: &View<'_>, multi: bool, at: usize) -> bool
    requires subject { IsText view.now.options.now view.now.subject.now }
    requires place { IsTextPlace view.now.options.now view.now.subject.now at }
    ensures { result ≡ holds (bare_text view.now) (AnchorKind.Caret multi) at }
{
    if at == 0 {
        return !view.matching.notbol;
    }
    multi
        && at < view.subject.len()
        && newline_before(view.subject, at, view.options.newline, view.options.utf) > 0
}

/// `$` under MULTILINE
fn line_end(view: &View<'_>, at: usize) -> Held
    requires subject { IsText view.now.options.now view.now.subject.now }
    requires place { IsTextPlace view.now.options.now view.now.subject.now at }
    ensures holds { (end_only : _)
        → result.holds ≡ holds (bare_text view.now) (AnchorKind.Dollar true end_only) at }
    ensures at_end { (end_only : _)
        → result.at_end ≡ anchor_reaches (bare_text view.now) (AnchorKind.Dollar true end_only) at }
{
    if at == view.subject.len() {
        let holds = !view.matching.noteol;
        return Held {
            holds,
            at_end: holds,
        };
    }
    Held {
        holds: newline_len(view, at) > 0,
        at_end: is_half_newline(view, at),
    }
}

/// `$`
fn dollar(view: &View<'_>, multi: bool, end_only: bool, at: usize) -> Held
    requires subject { IsText view.now.options.now view.now.subject.now }
    requires place { IsTextPlace view.now.options.now view.now.subject.now at }
    ensures holds { let kind = AnchorKind.Dollar multi end_only
        in result.holds ≡ holds (bare_text view.now) kind at }
    ensures at_end { let kind = AnchorKind.Dollar multi end_only
        in result.at_end ≡ anchor_reaches (bare_text view.now) kind at }
{
    if multi {
        return line_end(view, at);
    }
    let here = if end_only {
        at == view.subject.len()
    } else {
        is_close(view, at)
    };
    let holds = here && !view.matching.noteol;
    Held {
        holds,
        at_end: holds || is_half_newline(view, at),
    }
}

/// `\Z`
fn close(view: &View<'_>, at: usize) -> Held
    requires subject { IsText view.now.options.now view.now.subject.now }
    requires place { IsTextPlace view.now.options.now view.now.subject.now at }
    ensures holds { result.holds ≡ is_close (bare_text view.now) at }
    ensures at_end { let g = bare_text view.now
        in result.at_end ≡ (is_close g at || items.is_half_newline g at) }
{
    let holds = is_close(view, at);
    Held {
        holds,
        at_end: holds || is_half_newline(view, at),
    }
}

/// Whether the place is the end, or a newline stands there that ends at the end.
fn is_close(view: &View<'_>, at: usize) -> bool
    requires subject { IsText view.now.options.now view.now.subject.now }
    requires place { IsTextPlace view.now.options.now view.now.subject.now at }
    ensures { result ≡ is_close (bare_text view.now) at }
{
    if at == view.subject.len() {
        return true;
    }
    let len = newline_len(view, at);
    len > 0 && len == view.subject.len() - at
}

/// The length of the newline that begins at a place, 0 where none does.
fn newline_len(view: &View<'_>, at: usize) -> usize
    requires { at ≤ length view.now.subject.now }
    ensures { result ≡ items.newline_at (bare_text view.now) at }
{
    newline_at(view.subject, at, view.options.newline, view.options.utf)
}

/// Whether the last byte stands there, and may be the first half of a newline CRLF.
pub(crate) fn is_half_newline(view: &View<'_>, at: usize) -> bool
    requires { IsTextPlace view.now.options.now view.now.subject.now at }
    ensures { result ≡ items.is_half_newline (bare_text view.now) at }
{
    let is_last = view.subject.len() - at == 1;
    is_last && view.subject[at] == b'\r' && matches!(view.options.newline, Newline::CrLf)
}

/// Whether a word character stands on one side alone.
fn is_boundary(view: &View<'_>, ucp: bool, at: usize) -> bool
    requires subject { IsText view.now.options.now view.now.subject.now }
    requires place { IsTextPlace view.now.options.now view.now.subject.now at }
    ensures { result ≡ is_boundary (bare_text view.now) ucp at }
{
    word_before(view, ucp, at) != word_at(view, ucp, at)
}

/// Whether a word character stands before a place.
fn word_before(view: &View<'_>, ucp: bool, at: usize) -> bool
    requires subject { IsText view.now.options.now view.now.subject.now }
    requires place { IsTextPlace view.now.options.now view.now.subject.now at }
    ensures { let g = bare_text view.now in result ≡ is_word_at g ucp (previous g at) }
{
    if at == 0 {
        return false;
    }
    let (c, _) = char_before(view.subject, at, view.options.utf);
    is_word(c, ucp)
}

/// Whether a word character stands at a place.
fn word_at(view: &View<'_>, ucp: bool, at: usize) -> bool
    requires subject { IsText view.now.options.now view.now.subject.now }
    requires place { IsTextPlace view.now.options.now view.now.subject.now at }
    ensures { let g = bare_text view.now in result ≡ is_word_at g ucp (next g at) }
{
    if at == view.subject.len() {
        return false;
    }
    let (c, _) = char_at(view.subject, at, view.options.utf);
    is_word(c, ucp)
}
