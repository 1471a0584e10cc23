//! Tests of items whose counts nothing reads.
ghost use Rattle.std.specs.Prelude.{◌≡◌, ◌+◌, ◌<◌, All, Option, length};
ghost use Rattle.pat_tree.specs.Rules.{class_in};
ghost use Rattle.match_items.specs.Subjects.{IsText, IsTextPlace};
ghost use Rattle.match_items.specs.Items.{after_item, longest_run, places_back, run_reaches};
ghost use Rattle.match_items.specs.Views.{bare_text, text_scene, end_of};
ghost use Rattle.frame_board.specs.Told.{place_in};

use char_sets::ClassTable;
use match_items::{ItemRun, Taken, View, item_run, item_step, text_before};
use pat_tree::Item;

/// The place after what was taken.
pub(crate) fn place_of(taken: Taken) -> Option<u64>
    ensures { result ≡ place_in taken }
{
    match taken {
        Taken::Took(place) => Some(place as u64),
        Taken::No | Taken::AtEnd => None,
    }
}

/// A place as a wider number.
pub(crate) fn wide(place: Option<usize>) -> Option<u64>
    ensures { result ≡ place }
{
    match place {
        Some(place) => Some(place as u64),
        None => None,
    }
}

/// How many characters stand before a place, this number of them at most.
pub(crate) fn room_before(view: &View<'_>, at: usize, most: u32) -> u32
    requires subject { IsText view.now.options.now view.now.subject.now }
    requires place { IsTextPlace view.now.options.now view.now.subject.now at }
    ensures { result + 1 ≡ length (places_back (bare_text view.now) most at) }
{
    let mut room = 0;
    let mut place = at;
    'characters: while room < most && place > 0 {
        room += 1;
        place = text_before(view, place);
    }
    room
}

/// The place after what one item takes.
pub(crate) fn taken(view: &View<'_>, classes: &ClassTable, item: &Item, at: usize) -> Option<u64>
    requires subject { IsText view.now.options.now view.now.subject.now }
    requires place { IsTextPlace view.now.options.now view.now.subject.now at }
    requires class { All (λ n. n < length classes.now) (class_in item.now) }
    ensures { result ≡ after_item (text_scene view.now classes.now) item.now at }
{
    place_of(item_step(view, classes, item, at))
}

/// The longest run of an item, with a maximum if there is one.
pub(crate) fn longest(
    view: &View<'_>,
    classes: &ClassTable,
    item: &Item,
    at: usize,
    most: Option<u32>,
) -> ItemRun
    requires subject { IsText view.now.options.now view.now.subject.now }
    requires place { IsTextPlace view.now.options.now view.now.subject.now at }
    requires class { All (λ n. n < length classes.now) (class_in item.now) }
    ensures count { result.count
        ≡ length (longest_run (text_scene view.now classes.now) item.now most at) }
    ensures to { result.to
        ≡ end_of at (longest_run (text_scene view.now classes.now) item.now most at) }
    ensures at_end { result.at_end ≡ run_reaches (text_scene view.now classes.now) item.now most at
        (longest_run (text_scene view.now classes.now) item.now most at) }
{
    // No run has so many characters, so this maximum is none.
    let most = most.unwrap_or(u32::MAX);
    item_run(view, classes, item, at, most)
}
