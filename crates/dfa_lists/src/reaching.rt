//! Whether what is tested at a place reaches the subject's end (pcre2partial, "Partial matching in
//! PCRE2").
ghost use Rattle.std.specs.Prelude.{◌≡◌, ◌&&◌, ◌||◌};
ghost use Rattle.match_items.specs.Subjects.{IsTextPlace};
ghost use Rattle.match_items.specs.Items as items;
ghost use Rattle.match_items.specs.Views.{bare_text};
ghost use Rattle.dfa_paths.specs.Meets as meets;

use match_items::View;
use pat_tree::{AnchorKind, Item, Newline};

/// Whether the last byte stands there, and is CR.
fn is_last_cr(view: &View<'_>, at: usize) -> bool
    requires { IsTextPlace view.now.options.now view.now.subject.now at }
    ensures { result ≡ items.is_last_cr (bare_text view.now) at }
{
    let is_last = view.subject.len() - at == 1;
    is_last && view.subject[at] == b'\r'
}

/// Whether the test of an item reaches the end: at the end, or at a CR that may be the first half of
/// a newline.
pub(crate) fn item_reaches(view: &View<'_>, item: &Item, at: usize) -> bool
    requires { IsTextPlace view.now.options.now view.now.subject.now at }
    ensures { result ≡ items.item_reaches (bare_text view.now) item.now at }
{
    if at == view.subject.len() {
        return true;
    }
    matches!(item, Item::NotNewline)
        && matches!(view.options.newline, Newline::CrLf)
        && is_last_cr(view, at)
}

/// Whether `\R` reaches the end: at the end, or at a CR that an LF may follow.
pub(crate) fn break_reaches(view: &View<'_>, at: usize) -> bool
    requires { IsTextPlace view.now.options.now view.now.subject.now at }
    ensures { result ≡ items.break_reaches (bare_text view.now) at }
{
    at == view.subject.len() || is_last_cr(view, at)
}

/// `\b` and `\B` look at the character before.
pub(crate) fn looks_back(kind: AnchorKind) -> bool
    ensures { result ≡ meets.looks_back kind }
{
    matches!(kind, AnchorKind::Word { .. } | AnchorKind::NotWord { .. })
}

/// Notes that a test reaches the end, or that a path ends.
pub(crate) fn tell(told: &mut bool, reaches: bool)
    ensures { told.new ≡ (told.old || reaches) }
{
    *told = *told || reaches;
}
