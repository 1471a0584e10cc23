//! The tries of a branch of a lookbehind (pcre2pattern, "Lookbehind assertions").
ghost use Rattle.std.specs.Prelude.{◌≡◌, ◌<◌, ◌∷◌, true, drop, length, IfSome, Some};
ghost use Rattle.match_items.specs.Items.{places_back};
ghost use Rattle.match_items.specs.Subjects.{IsText, IsTextPlace};
ghost use Rattle.match_items.specs.Views.{bare_text};
ghost use Rattle.dfa_ends.specs.Ends.{Among};
ghost use Rattle.dfa_lists.specs.Tries.{places_of};

use crate::lists::EndList;
use dfa_paths::Back;
use match_items::{View, text_back};

/// A try of a branch: where it begins, and how many characters before that the last one may begin.
#[derive(Clone, Copy, Debug, PartialEq, Eq)]
pub(crate) struct Try {
    pub(crate) place: usize,
    pub(crate) left: u32,
}

/// The first try of a branch at a place, which begins as many characters before as the least length.
pub(crate) fn first_try(view: &View<'_>, back: Back, at: usize) -> Option<Try>
    requires subject { IsText view.now.options.now view.now.subject.now }
    requires place { IsTextPlace view.now.options.now view.now.subject.now at }
    ensures tries { places_of (bare_text view.now) result
        ≡ drop back.least (places_back (bare_text view.now) back.most at) }
    ensures place { IfSome result
        (λ t. IsTextPlace view.now.options.now view.now.subject.now t.place) }
{
    if back.most < back.least {
        return None;
    }
    let place = text_back(view, at, back.least)?;
    Some(Try {
        place,
        left: back.most - back.least,
    })
}

/// The try that begins a character before another.
pub(crate) fn later_try(view: &View<'_>, tried: Try) -> Option<Try>
    requires subject { IsText view.now.options.now view.now.subject.now }
    requires place { IsTextPlace view.now.options.now view.now.subject.now tried.place }
    ensures tries { places_of (bare_text view.now) (Some tried)
        ≡ tried.place ∷ places_of (bare_text view.now) result }
    ensures place { IfSome result
        (λ t. IsTextPlace view.now.options.now view.now.subject.now t.place) }
{
    if tried.left == 0 {
        return None;
    }
    let place = text_back(view, tried.place, 1)?;
    Some(Try {
        place,
        left: tried.left - 1,
    })
}

/// Whether a place is among these ends.
pub(crate) fn has_end(ends: &EndList, at: usize) -> bool
    ensures has { result ≡ true → Among at ends.now }
    ensures has_not { Among at ends.now → result ≡ true }
{
    let mut k = 0;
    'ends: while k < ends.len() {
        if *ends.get(k) == at as u64 {
            return true;
        }
        k += 1;
    }
    false
}
