//! The start places of a search of a finished tree, for a matcher that goes over them itself.
ghost use Rattle.std.specs.Prelude.{◌≡◌, ◌≤◌, ◌<◌, length, IfSome};
ghost use Rattle.std.specs.Option.{option_copied};
ghost use Rattle.match_items.specs.Subjects.{IsTextPlace};
ghost use Rattle.frame_machine.specs.frame_board.Ready.{IsReadySearch, setting_for};
ghost use Rattle.ordered_search.specs.Places as places;
ghost use Rattle.ordered_search.specs.PlaceAnswer.{Exhausted};
ghost use Rattle.match_starts.specs.Asked.{passed_over};
ghost use Rattle.match_drive.specs.Course.{IsByteCourse};

use crate::course::Course;
use crate::outline::Guide;
use crate::places::{is_excluded, last_place, place_after};
use frame_machine::{Ready, Signal};
use match_items::View;

/// A walk over the places of which nothing more is known.
fn course_of<'a>(ready: &'a Ready<'a>, view: &'a View<'a>) -> Course<'a>
    requires { IsReadySearch ready.now view.now }
    ensures ready { result.ready.now ≡ ready.now }
    ensures view { result.view.now ≡ view.now }
    ensures fits { IsByteCourse result.ready.now result.view.now result.guide result.first.now
        (option_copied result.begin) }
{
    Course {
        ready,
        view,
        guide: Guide {
            at_begin: false,
            whole: None,
            repeat: None,
            run: None,
        },
        first: &[],
        begin: None,
    }
}

/// The last place at which a match may begin.
pub fn last_start(ready: &Ready<'_>, view: &View<'_>) -> usize
    requires { IsReadySearch ready.now view.now }
    ensures value { result
        ≡ places.last_place (setting_for ready.now.tree.now view.now passed_over) }
    ensures low { view.now.start ≤ result }
    ensures within { result ≤ length view.now.subject.now }
{
    last_place(&course_of(ready, view))
}

/// Whether a place is left out, as no match begins with the byte there.
pub fn is_left_out(ready: &Ready<'_>, view: &View<'_>, at: usize) -> bool
    requires ready { IsReadySearch ready.now view.now }
    requires at { at ≤ length view.now.subject.now }
    ensures { result ≡ places.is_excluded (setting_for ready.now.tree.now view.now passed_over) at }
{
    is_excluded(&course_of(ready, view), at)
}

/// The place after one where no match begins, up to the last one.
pub fn start_after(ready: &Ready<'_>, view: &View<'_>, at: usize, last: usize) -> Option<usize>
    requires ready { IsReadySearch ready.now view.now }
    requires at { IsTextPlace view.now.options.now view.now.subject.now at }
    requires last { last ≡ places.last_place (setting_for ready.now.tree.now view.now passed_over) }
    ensures value { result
        ≡ places.place_after (setting_for ready.now.tree.now view.now passed_over) at Exhausted }
    ensures place { IfSome result (IsTextPlace view.now.options.now view.now.subject.now) }
    ensures later { IfSome result (λ to. at < to) }
    ensures within { IfSome result (λ to. to ≤ last) }
{
    place_after(&course_of(ready, view), at, Signal::Exhausted, last)
}
