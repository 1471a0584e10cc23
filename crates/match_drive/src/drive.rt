//! The search over all start places.
ghost use Rattle.std.specs.Prelude.{◌≡◌, ◌≤◌, ◌<◌, max};
ghost use Rattle.frame_machine.specs.frame_board.Ready.{IsReadySearch, setting_for};
ghost use Rattle.pat_tree.specs.declared.options.PartialMode.TheVariants.{Off};
ghost use Rattle.pcre_io.specs.declared.callouts.Block.{Block};
ghost use Rattle.frame_state.specs.Room.{IsQuiet};
ghost use Rattle.frame_machine.specs.Scratch.{HasRoom, IsOfSearch};
ghost use Rattle.match_starts.specs.Asked.{passed_over};
ghost use Rattle.match_drive.specs.Answer.{IsMatchAnswer, IsLastMark, IsNotPartial, IsDeciding, IsOfMatching};
ghost use Rattle.match_drive.specs.Answer.{IsShown, TellsMemory, TellsPlace, TellsNone};
ghost use Rattle.ordered_search.specs.MatchAnswer.{match_answer};
ghost use Rattle.match_drive.specs.Rest as rest;
ghost use Rattle.match_drive.specs.Outline.{IsOutlineOf};
ghost use Rattle.match_drive.specs.Starts.{AreAlike};

use crate::answer::MatchAnswer;
use crate::course::Course;
use crate::driven::Driven;
use crate::need::{begin_of, lacks_need, no_match};
use crate::outline::Outline;
use crate::places::{last_place, next_tried, place_past};
use frame_machine::{PlaceAnswer, Ready, Scratch};
use match_items::View;
use match_starts::are_bytes;
use pcre_io::{Callouts, NoCallouts};

/// The first place that reached the subject's end, after one more place.
fn first_hit(first: Option<usize>, hit_end: bool, at: usize) -> Option<usize>
    ensures { result ≡ rest.first_hit first hit_end at }
{
    match first {
        None if hit_end => Some(at),
        _ => first,
    }
}

/// The answer where a place decides, after a first one that reached the subject's end. `last_mark` is the last name
/// that was met.
fn decided(
    answer: PlaceAnswer,
    at: usize,
    first: Option<usize>,
    last_mark: Option<u32>,
) -> MatchAnswer
    requires { IsDeciding answer }
    ensures tells { TellsPlace answer at first last_mark result }
    ensures memory { TellsMemory answer result }
    ensures reserved { IsOfSearch answer → IsOfMatching result }
{
    match answer {
        PlaceAnswer::Matched { keep, to, mark } => MatchAnswer::Match { keep, to, mark },
        PlaceAnswer::Failed { .. } => unreachable!(),
        PlaceAnswer::Partial => MatchAnswer::Partial {
            start: first.unwrap_or(at),
            mark: last_mark,
        },
        PlaceAnswer::MatchLimit => MatchAnswer::MatchLimit,
        PlaceAnswer::FrameLimit => MatchAnswer::FrameLimit,
        PlaceAnswer::Loop => MatchAnswer::RecurseLoop,
        PlaceAnswer::Abort(n) => MatchAnswer::Callout(n),
        PlaceAnswer::Memory => MatchAnswer::Memory,
    }
}

/// The answer where no place decides: a partial match from the first place that reached the subject's end, if one did
/// (pcre2partial, "Partial matching using PCRE2_PARTIAL_SOFT").
fn undecided(first: Option<usize>, mark: Option<u32>) -> MatchAnswer
    ensures tells { TellsNone first mark result }
    ensures reserved { IsOfMatching result }
{
    match first {
        Some(start) => MatchAnswer::Partial { start, mark },
        None => MatchAnswer::NoMatch { mark },
    }
}

/// Searches over all start places, in order, and answers what the definitions answer, with the captures of a match in
/// the workspace (pcre2api, "Matching a pattern: the traditional function"). There is no partial match without partial
/// matching. Want of memory may be answered at any time. The workspace can be used again after every answer. `calls` is
/// shown a block at each callout.
pub fn search_on<S: Driven, C: Callouts>(
    on: &S,
    scratch: &mut Scratch,
    calls: &mut C,
) -> MatchAnswer
    requires { S.fits on.now }
    ensures answer { IsMatchAnswer result scratch.new.spans
        (match_answer (S.asked on.now (C.answers calls.old))) }
    ensures last_mark { IsLastMark result scratch.new.last_mark
        (match_answer (S.asked on.now (C.answers calls.old))) }
    ensures whole { (S.asked on.now passed_over).matching.partial ≡ Off → IsNotPartial result }
    ensures peak { scratch.new.peak
        ≤ max scratch.old.peak (S.asked on.now passed_over).matching.frame_limit }
    ensures groups { scratch.new.groups ≡ scratch.old.groups }
    ensures frames { scratch.new.frames ≡ scratch.old.frames }
    ensures rule { (block : Block) → C.answers calls.new block ≡ C.answers calls.old block }
    ensures seen { IsShown result (C.seen calls.old) (C.seen calls.new)
        (match_answer (S.asked on.now (C.answers calls.old))) }
    ensures reserved { HasRoom scratch.old (S.asked on.now passed_over).groups
        (S.asked on.now passed_over).matching.frame_limit
        → IsQuiet C.refuses (C.answers calls.old) → IsOfMatching result }
{
    scratch.clear_mark();
    let last = last_place(on);
    let mut first = None;
    let mut next = next_tried(on, Some(on.start()), last);
    'places: while let Some(place) = next {
        let answer = on.try_at(place, scratch, calls);
        let PlaceAnswer::Failed { signal, hit_end } = answer else {
            return decided(answer, place, first, scratch.last_mark());
        };
        first = first_hit(first, hit_end, place);
        next = next_tried(on, place_past(on, place, signal, last), last);
    }
    undecided(first, scratch.last_mark())
}

/// Searches a finished tree over all start places, in order, and leaves the captures of a match in the workspace
/// (pcre2api, "Matching a pattern: the traditional function"). Any workspace serves, new or used, and it can be used
/// again after every answer. Want of memory may be answered at any time.
///
/// For a tree without verbs, callouts and calls the answer is the same with start optimisations and
/// without them, unless a limit is passed without them (pcre2api, "Option bits for
/// pcre2_compile()", PCRE2_NO_START_OPTIMIZE).
///
/// Needs the table and the facts of the tree, and a view with the tree's options; a subject of fewer than 4,294,967,295
/// bytes, which in UTF is UTF-8; and a start in the subject, in UTF where a character begins. There is no partial match
/// without partial matching.
///
/// At each callout it calls `calls`, and follows the answer. Where want of memory is answered, the blocks that were
/// shown aren't told.
pub fn search<C: Callouts>(
    ready: &Ready<'_>,
    view: &View<'_>,
    scratch: &mut Scratch,
    calls: &mut C,
) -> MatchAnswer
    requires { IsReadySearch ready.now view.now }
    ensures answer { IsMatchAnswer result scratch.new.spans
        (match_answer (setting_for ready.now.tree.now view.now (C.answers calls.old))) }
    ensures last_mark { IsLastMark result scratch.new.last_mark
        (match_answer (setting_for ready.now.tree.now view.now (C.answers calls.old))) }
    ensures starts { AreAlike (setting_for ready.now.tree.now view.now (C.answers calls.old)) }
    ensures whole { view.now.matching.now.partial ≡ Off → IsNotPartial result }
    ensures peak { scratch.new.peak ≤ max scratch.old.peak view.now.matching.now.frame_limit }
    ensures groups { scratch.new.groups ≡ scratch.old.groups }
    ensures frames { scratch.new.frames ≡ scratch.old.frames }
    ensures rule { (block : Block) → C.answers calls.new block ≡ C.answers calls.old block }
    ensures seen { IsShown result (C.seen calls.old) (C.seen calls.new)
        (match_answer (setting_for ready.now.tree.now view.now (C.answers calls.old))) }
    ensures reserved { HasRoom scratch.old
        (setting_for ready.now.tree.now view.now passed_over).groups
        view.now.matching.now.frame_limit
        → IsQuiet C.refuses (C.answers calls.old) → IsOfMatching result }
{
    search_by(ready, &Outline::of(ready.tree), view, scratch, calls)
}

/// The same for who has the tree's outline: one that was made before serves all searches of the tree.
pub fn search_by<C: Callouts>(
    ready: &Ready<'_>,
    outline: &Outline,
    view: &View<'_>,
    scratch: &mut Scratch,
    calls: &mut C,
) -> MatchAnswer
    requires search { IsReadySearch ready.now view.now }
    requires outline { IsOutlineOf ready.now.tree.now outline.now }
    ensures answer { IsMatchAnswer result scratch.new.spans
        (match_answer (setting_for ready.now.tree.now view.now (C.answers calls.old))) }
    ensures last_mark { IsLastMark result scratch.new.last_mark
        (match_answer (setting_for ready.now.tree.now view.now (C.answers calls.old))) }
    ensures starts { AreAlike (setting_for ready.now.tree.now view.now (C.answers calls.old)) }
    ensures whole { view.now.matching.now.partial ≡ Off → IsNotPartial result }
    ensures peak { scratch.new.peak ≤ max scratch.old.peak view.now.matching.now.frame_limit }
    ensures groups { scratch.new.groups ≡ scratch.old.groups }
    ensures frames { scratch.new.frames ≡ scratch.old.frames }
    ensures rule { (block : Block) → C.answers calls.new block ≡ C.answers calls.old block }
    ensures seen { IsShown result (C.seen calls.old) (C.seen calls.new)
        (match_answer (setting_for ready.now.tree.now view.now (C.answers calls.old))) }
    ensures reserved { HasRoom scratch.old
        (setting_for ready.now.tree.now view.now passed_over).groups
        view.now.matching.now.frame_limit
        → IsQuiet C.refuses (C.answers calls.old) → IsOfMatching result }
{
    // what the clause on start optimisations goes by
    ready.tree.is_sound();
    are_bytes(view.subject);
    if lacks_need(ready, view) {
        return no_match(scratch);
    }
    let course = Course {
        ready,
        view,
        guide: outline.for_search(view),
        first: outline.branches(ready.tree, view),
        begin: begin_of(ready, view, outline.at_begin),
    };
    search_on(&course, scratch, calls)
}

/// The same in room that was made before (`Scratch::reserve`), so that it takes no memory: neither want of memory is
/// answered nor a callout's answer. Callouts are passed over.
pub fn search_reserved(ready: &Ready<'_>, view: &View<'_>, scratch: &mut Scratch) -> MatchAnswer
    requires search { IsReadySearch ready.now view.now }
    requires room { HasRoom scratch.old (setting_for ready.now.tree.now view.now passed_over).groups
        view.now.matching.now.frame_limit }
    ensures answer { IsMatchAnswer result scratch.new.spans
        (match_answer (setting_for ready.now.tree.now view.now passed_over)) }
    ensures of_matching { IsOfMatching result }
    ensures last_mark { IsLastMark result scratch.new.last_mark
        (match_answer (setting_for ready.now.tree.now view.now passed_over)) }
    ensures whole { view.now.matching.now.partial ≡ Off → IsNotPartial result }
    ensures peak { scratch.new.peak ≤ max scratch.old.peak view.now.matching.now.frame_limit }
    ensures groups { scratch.new.groups ≡ scratch.old.groups }
    ensures frames { scratch.new.frames ≡ scratch.old.frames }
{
    search(ready, view, scratch, &mut NoCallouts)
}
