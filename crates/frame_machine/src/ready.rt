//! The search of a finished tree at one place.
ghost use Rattle.std.specs.Prelude.{◌≡◌, ◌≤◌, max, pos};
ghost use Rattle.match_items.specs.Subjects.{IsTextPlace};
ghost use Rattle.pcre_io.specs.declared.callouts.Block.{Block};
ghost use Rattle.frame_state.specs.Answer.{IsAnswer, IsMark, IsSeen, SkipsToPlace};
ghost use Rattle.frame_state.specs.Room.{IsQuiet};
ghost use Rattle.frame_machine.specs.Scratch.{HasRoom, IsOfSearch};
ghost use Rattle.ordered_search.specs.PlaceAnswer.{place_answer};
ghost use Rattle.frame_board.specs.Ready.{IsReadySearch, setting_for};

use crate::scratch::{Scratch, search_at};
use frame_board::{Board, Ready};
use frame_state::answer::PlaceAnswer;
use match_items::View;
use pcre_io::{Callouts, NoCallouts};
use std::snapshot::Snapshot;

/// Searches a finished tree at one place, and leaves the captures of a match in the workspace (pcre2matching, "The
/// standard matching algorithm"). Any workspace serves, new or used.
///
/// Needs the table and the facts of the tree, and a view with the tree's options; a subject of fewer than 4,294,967,295
/// bytes, which in UTF is UTF-8; a start that is at most the place, and both in the subject, in UTF where characters
/// begin; and a tree of which no lookbehind is refused, as its facts say.
///
/// At each callout it calls `calls`, and follows the answer. Where want of memory is answered, the blocks that were
/// shown last are not told.
pub fn run_at<C: Callouts>(
    ready: &Ready<'_>,
    view: &View<'_>,
    place: usize,
    scratch: &mut Scratch,
    calls: &mut C,
) -> PlaceAnswer
    requires search { IsReadySearch ready.now view.now }
    requires start { view.now.start ≤ place }
    requires place { IsTextPlace view.now.options.now view.now.subject.now place }
    ensures answer { IsAnswer result scratch.new.spans
        (place_answer (setting_for ready.now.tree.now view.now (C.answers calls.old)) place) }
    ensures mark { IsMark result scratch.old.last_mark scratch.new.last_mark
        (place_answer (setting_for ready.now.tree.now view.now (C.answers calls.old)) place) }
    ensures skip { SkipsToPlace view.now.options.now view.now.subject.now result }
    ensures peak { scratch.new.peak ≤ max scratch.old.peak view.now.matching.now.frame_limit }
    ensures groups { scratch.new.groups ≡ scratch.old.groups }
    ensures frames { scratch.new.frames ≡ scratch.old.frames }
    ensures rule { (block : Block) → C.answers calls.new block ≡ C.answers calls.old block }
    ensures seen { IsSeen result (C.seen calls.old) (C.seen calls.new)
        (place_answer (setting_for ready.now.tree.now view.now (C.answers calls.old)) place) }
    ensures reserved { HasRoom scratch.old
        (setting_for ready.now.tree.now view.now (C.answers calls.old)).groups
        view.now.matching.now.frame_limit
        → IsQuiet C.refuses (C.answers calls.old) → IsOfSearch result }
{
    // What is read here and not used is read for what it is known to keep.
    ready.tree.is_sound();
    let _groups = ready.tree.groups();
    let _limit = view.matching.match_limit;
    let board = Board {
        tree: ready.tree,
        classes: ready.classes,
        facts: ready.facts,
        subject: view.subject,
        start: view.start,
        matching: view.matching,
        calls: Snapshot::of(calls),
    };
    search_at(&board, place as u64, scratch, calls)
}

/// The same in room that was made before, so that it takes no memory: neither want of memory is answered nor a
/// callout's answer. Callouts are passed over.
pub fn run_at_reserved(
    ready: &Ready<'_>,
    view: &View<'_>,
    place: usize,
    scratch: &mut Scratch,
) -> PlaceAnswer
    requires search { IsReadySearch ready.now view.now }
    requires start { view.now.start ≤ place }
    requires place { IsTextPlace view.now.options.now view.now.subject.now place }
    requires room { HasRoom scratch.old
        (setting_for ready.now.tree.now view.now (λ block. pos 0)).groups
        view.now.matching.now.frame_limit }
    ensures answer { IsAnswer result scratch.new.spans
        (place_answer (setting_for ready.now.tree.now view.now (λ block. pos 0)) place) }
    ensures of_search { IsOfSearch result }
    ensures mark { IsMark result scratch.old.last_mark scratch.new.last_mark
        (place_answer (setting_for ready.now.tree.now view.now (λ block. pos 0)) place) }
    ensures skip { SkipsToPlace view.now.options.now view.now.subject.now result }
    ensures peak { scratch.new.peak ≤ max scratch.old.peak view.now.matching.now.frame_limit }
    ensures groups { scratch.new.groups ≡ scratch.old.groups }
    ensures frames { scratch.new.frames ≡ scratch.old.frames }
{
    run_at(ready, view, place, scratch, &mut NoCallouts)
}
