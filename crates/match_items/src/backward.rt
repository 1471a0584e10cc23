//! Places before a place.
ghost use Rattle.std.specs.Prelude.{◌≡◌, IfSome, slice_get};
ghost use Rattle.match_items.specs.Subjects.{IsText, IsTextPlace};
ghost use Rattle.match_items.specs.Items.{place_before, places_back};
ghost use Rattle.match_items.specs.Views.{bare_text};

use crate::view::View;
use uni_text::char_before;

/// The place of the character before a place; the place itself at the subject's start.
///
/// Needs a subject of fewer than 4,294,967,295 bytes and a place in it; in UTF the subject must be
/// UTF-8, and a character must begin at the place.
pub fn text_before(view: &View<'_>, at: usize) -> usize
    requires subject { IsText view.now.options.now view.now.subject.now }
    requires place { IsTextPlace view.now.options.now view.now.subject.now at }
    ensures value { result ≡ place_before (bare_text view.now) at }
    ensures place { IsTextPlace view.now.options.now view.now.subject.now result }
{
    if at == 0 {
        return 0;
    }
    char_before(view.subject, at, view.options.utf).1
}

/// The place so many characters before another, where there are so many (pcre2pattern, "Lookbehind
/// assertions").
///
/// Needs what `text_before` needs.
pub fn text_back(view: &View<'_>, at: usize, count: u32) -> Option<usize>
    requires subject { IsText view.now.options.now view.now.subject.now }
    requires place { IsTextPlace view.now.options.now view.now.subject.now at }
    ensures value { result ≡ slice_get (places_back (bare_text view.now) count at) count }
    ensures place { IfSome result
        (λ p. IsTextPlace view.now.options.now view.now.subject.now p) }
{
    let mut left = count;
    let mut place = at;
    while left > 0 {
        if place == 0 {
            return None;
        }
        left -= 1;
        place = text_before(view, place);
    }
    Some(place)
}
