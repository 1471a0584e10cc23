//! One item at one place.
ghost use Rattle.std.specs.Prelude.{◌≡◌, ◌+◌, ◌<◌, ◌==◌, All, length};
ghost use Rattle.pat_tree.specs.Rules.{class_in};
ghost use Rattle.uni_text.specs.Ascii.{ascii_fold};
ghost use Rattle.match_items.specs.Subjects.{IsText, IsTextPlace};
ghost use Rattle.match_items.specs.Items as items;
ghost use Rattle.match_items.specs.Items.{after_item, item_reaches};
ghost use Rattle.match_items.specs.Views.{text_scene, bare_text, told, step_tests, agrees_in, fold_in};

use crate::view::{Taken, View};
use char_sets::ClassTable;
use pat_tree::{Item, Steps, newline_at};
use std::sync::ledger::Ledger;
use uni_text::char_at;

/// Tests one item at a place: it takes the character there or none (pcre2pattern, "Full stop
/// (period, dot) and \N", "Square brackets and character classes"). It reaches the subject's end
/// where it is tried there (pcre2partial); a CR that is the last byte and may be the first half of
/// a newline is taken all the same. A class counts one test where a character stands there.
///
/// Needs a subject of fewer than 4,294,967,295 bytes, a place in it, and a class of the table; in
/// UTF the subject must be UTF-8, and a character must begin at the place.
pub fn step<L: Ledger>(
    view: &View<'_>,
    classes: &ClassTable,
    item: &Item,
    at: usize,
    steps: &mut Steps<L>,
) -> Taken
    requires subject { IsText view.now.options.now view.now.subject.now }
    requires place { IsTextPlace view.now.options.now view.now.subject.now at }
    requires class { All (λ n. n < length classes.now) (class_in item.now) }
    ensures takes { let g = text_scene view.now classes.now
        in result ≡ told (after_item g item.now at) (item_reaches g item.now at) }
    ensures tests { steps.new
        ≡ steps.old + step_tests (text_scene view.now classes.now) item.now at }
{
    if at == view.subject.len() {
        return Taken::AtEnd;
    }
    let (c, next) = char_at(view.subject, at, view.options.utf);
    if takes(view, classes, item, at, c, steps) {
        Taken::Took(next)
    } else {
        Taken::No
    }
}

/// Whether the item takes the character `c` that stands at a place.
#[inline]
pub(crate) fn takes<L: Ledger>(
    view: &View<'_>,
    classes: &ClassTable,
    item: &Item,
    at: usize,
    c: u32,
    steps: &mut Steps<L>,
) -> bool
    requires place { at < length view.now.subject.now }
    requires class { All (λ n. n < length classes.now) (class_in item.now) }
    ensures value { result ≡ items.takes (text_scene view.now classes.now) item.now at c }
    ensures tests { steps.new
        ≡ steps.old + step_tests (text_scene view.now classes.now) item.now at }
{
    match *item {
        Item::Char {
            c: wanted,
            caseless,
        } => agrees(view.options.utf, caseless, wanted, c),
        Item::AnyAll => true,
        Item::NotNewline => is_in_line(view, at),
        Item::Class(class) => classes.has(class, c, steps),
    }
}

/// Whether no newline begins at a place before the end.
#[inline]
fn is_in_line(view: &View<'_>, at: usize) -> bool
    requires { at < length view.now.subject.now }
    ensures { result ≡ (items.newline_at (bare_text view.now) at == 0) }
{
    let byte = view.subject[at];
    // No text of a newline begins with such a byte.
    if 13 < byte && byte < 128 {
        return true;
    }
    newline_at(view.subject, at, view.options.newline, view.options.utf) == 0
}

/// Whether two characters agree, in UTF or outside it.
#[inline]
pub(crate) fn agrees(utf: bool, caseless: bool, a: u32, b: u32) -> bool
    ensures { result ≡ agrees_in utf caseless a b }
{
    if caseless {
        fold(utf, a) == fold(utf, b)
    } else {
        a == b
    }
}

/// A character's folding: in UTF the simple one of Unicode, which is the other one for ASCII, and
/// outside it that of the letters of ASCII.
#[inline]
pub(crate) fn fold(utf: bool, c: u32) -> u32
    ensures { result ≡ fold_in utf c }
{
    if utf && c > 0x7F {
        uni_text::fold(c)
    } else {
        ascii_fold(c)
    }
}

/// A capital letter of ASCII as its small letter, and any other character as it is.
#[inline]
fn ascii_fold(c: u32) -> u32
    ensures { result ≡ ascii_fold c }
{
    if matches!(c, 0x41..=0x5A) { c + 32 } else { c }
}
