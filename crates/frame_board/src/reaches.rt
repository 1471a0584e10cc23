//! Which tests reach the subject's end (pcre2partial, "Requirements for a partial match").
ghost use Rattle.std.specs.Prelude.{◌≡◌, ◌≤◌, length};
ghost use Rattle.match_items.specs.Subjects.{IsText, IsTextPlace};
ghost use Rattle.match_items.specs.Items as items;
ghost use Rattle.match_items.specs.Views.{bare_text};

use match_items::{Taken, View, ref_step};
use pat_tree::{Item, Newline};

/// Whether a CR stands at a place, and is the last byte.
fn is_last_cr(view: &View<'_>, at: usize) -> bool
    requires { at ≤ length view.now.subject.now }
    ensures { result ≡ items.is_last_cr (bare_text view.now) at }
{
    view.subject.len() - at == 1 && view.subject[at] == b'\r'
}

/// Whether the test of an item does: one at the end, or of a CR there that may be half a newline.
pub(crate) fn item_reaches(view: &View<'_>, item: &Item, at: usize) -> bool
    requires { at ≤ length view.now.subject.now }
    ensures { result ≡ items.item_reaches (bare_text view.now) item.now at }
{
    if at == view.subject.len() {
        return true;
    }
    matches!(item, Item::NotNewline)
        && matches!(view.options.newline, Newline::CrLf)
        && is_last_cr(view, at)
}

/// Whether the test of `\R` does: one at the end, or of a CR there that an LF may follow.
pub(crate) fn break_reaches(view: &View<'_>, at: usize) -> bool
    requires { at ≤ length view.now.subject.now }
    ensures { result ≡ items.break_reaches (bare_text view.now) at }
{
    at == view.subject.len() || is_last_cr(view, at)
}

/// Whether a reference to the text between two places does: fewer characters are left, and they
/// agree.
pub(crate) fn ref_reaches(
    view: &View<'_>,
    from: usize,
    to: usize,
    caseless: bool,
    at: usize,
) -> bool
    requires subject { IsText view.now.options.now view.now.subject.now }
    requires from { IsTextPlace view.now.options.now view.now.subject.now from }
    requires to { IsTextPlace view.now.options.now view.now.subject.now to }
    requires place { IsTextPlace view.now.options.now view.now.subject.now at }
    ensures { result ≡ items.ref_reaches (bare_text view.now) from to caseless at }
{
    // A text that ends before it begins is empty.
    if to < from {
        return false;
    }
    matches!(ref_step(view, from, to, caseless, at), Taken::AtEnd)
}
