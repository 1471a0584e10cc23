//! Texts that stand again.
ghost use Rattle.std.specs.Prelude.{◌≡◌, ◌+◌, ◌<◌, ◌≤◌, false, length, chars, IsTrue, IsUtf8};
ghost use Rattle.match_items.specs.Subjects.{IsText, IsTextPlace};
ghost use Rattle.match_items.specs.Items as items;
ghost use Rattle.match_items.specs.Items.{after_ref, after_text, ref_reaches, text_reaches};
ghost use Rattle.match_items.specs.Views.{bare_text, told};

use crate::items::agrees;
use crate::view::{Taken, View};
use uni_text::char_at;

/// Tests whether the text between two places stands again at a place, under `caseless` in any case:
/// by the foldings of Unicode in UTF, and outside it by the letters of ASCII (pcre2pattern,
/// "Backreferences"). It reaches the subject's end where fewer characters are left and all of them
/// agree (pcre2partial).
///
/// Needs a subject of fewer than 4,294,967,295 bytes, and places in it of which `from` is at most
/// `to`; in UTF the subject must be UTF-8, and a character must begin at each place.
pub fn ref_step(view: &View<'_>, from: usize, to: usize, caseless: bool, at: usize) -> Taken
    requires subject { IsText view.now.options.now view.now.subject.now }
    requires from { IsTextPlace view.now.options.now view.now.subject.now from }
    requires to { IsTextPlace view.now.options.now view.now.subject.now to }
    requires ordered { from ≤ to }
    requires place { IsTextPlace view.now.options.now view.now.subject.now at }
    ensures { let g = bare_text view.now
        in result ≡ told (after_ref g from to caseless at) (ref_reaches g from to caseless at) }
{
    let text = &view.subject[from..to];
    let rest = &view.subject[at..];
    if view.options.utf {
        return text_step(view, caseless, text, rest, at);
    }
    if !same_front(view, caseless, text, rest) {
        return Taken::No;
    }
    if text.len() <= rest.len() {
        Taken::Took(at + text.len())
    } else {
        Taken::AtEnd
    }
}

/// Whether two texts of bytes agree as far as both go.
fn same_front(view: &View<'_>, caseless: bool, text: &[u8], rest: &[u8]) -> bool
    requires { view.now.options.now.utf ≡ false }
    ensures { result ≡ items.same_front (bare_text view.now) caseless text.now rest.now }
{
    let shorter = text.len().min(rest.len());
    for i in 0..shorter {
        if !agrees(false, caseless, text[i] as u32, rest[i] as u32) {
            return false;
        }
    }
    true
}

/// Tests whether a text stands again in UTF, with the rest of the subject from a place on.
fn text_step(view: &View<'_>, caseless: bool, text: &[u8], rest: &[u8], at: usize) -> Taken
    requires utf { IsTrue view.now.options.now.utf }
    requires text { IsUtf8 text.now }
    requires rest { IsUtf8 rest.now }
    requires few { at + length rest.now < 4294967295 }
    ensures { let g = bare_text view.now in result
        ≡ told (after_text g caseless (chars text.now) (chars rest.now) at)
        (text_reaches g caseless (chars text.now) (chars rest.now)) }
{
    let mut compared = 0;
    let mut taken = 0;
    while compared < text.len() {
        let (a, after_a) = char_at(text, compared, true);
        if taken == rest.len() {
            return Taken::AtEnd;
        }
        let (b, after_b) = char_at(rest, taken, true);
        if !agrees(true, caseless, a, b) {
            return Taken::No;
        }
        compared = after_a;
        taken = after_b;
    }
    Taken::Took(at + taken)
}
