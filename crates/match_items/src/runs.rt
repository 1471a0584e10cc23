//! Runs of one item.
ghost use Rattle.std.specs.Prelude.{◌≡◌, ◌+◌, ◌-◌, ◌<◌, ◌≤◌, ◌==◌, ◌&&◌, ◌||◌, All, false, nat_lt, length};
ghost use Rattle.std.specs.Prelude.{slice_index, if◌then◌else◌};
ghost use Rattle.byte_lanes.specs.Newlines.{newline_len};
ghost use Rattle.byte_lanes.specs.Places.{IsLeast};
ghost use Rattle.pat_tree.specs.Newlines.{end_kind};
ghost use Rattle.pat_tree.specs.Rules.{class_in};
ghost use Rattle.uni_text.specs.Ascii.{ascii_fold};
ghost use Rattle.char_sets.specs.Table.{table_has};
ghost use Rattle.match_items.specs.Subjects.{IsText, IsTextPlace, IsSubject};
ghost use Rattle.match_items.specs.Items.{takes, is_end, item_reaches, longest_run, place_before, run_reaches};
ghost use Rattle.match_items.specs.Views.{text_scene, bare_text, maximum, IsWalk, run_tests, span_tests, end_of};

use crate::anchors::is_half_newline;
use crate::backward::text_before;
use crate::items::fold;
use crate::view::{ItemRun, View};
use crate::walks::{Walk, text_walk};
use byte_lanes::find_line_end;
use char_sets::ClassTable;
use pat_tree::{Item, Steps};
use std::sync::ledger::Ledger;

/// The longest run of an item from a place on, of `max` characters at most; `u32::MAX` stands for
/// no maximum (pcre2pattern, "Repetition"). It tells whether one of its tests reaches the subject's
/// end: the one at the end, which is made where fewer than the maximum are taken, and that of a
/// last CR that may be the first half of a newline (pcre2partial). A class counts one test at each
/// place that is tried before the end: at most one more than the run has characters.
///
/// Needs a subject of fewer than 4,294,967,295 bytes, a place in it, and a class of the table; in
/// UTF the subject must be UTF-8, and a character must begin at the place.
pub fn run_len<L: Ledger>(
    view: &View<'_>,
    classes: &ClassTable,
    item: &Item,
    at: usize,
    max: u32,
    steps: &mut Steps<L>,
) -> ItemRun
    requires subject { IsText view.now.options.now view.now.subject.now }
    requires place { IsTextPlace view.now.options.now view.now.subject.now at }
    requires class { All (λ n. n < length classes.now) (class_in item.now) }
    ensures count { let g = text_scene view.now classes.now
        in result.count ≡ length (longest_run g item.now (maximum max) at) }
    ensures to { let g = text_scene view.now classes.now
        in result.to ≡ end_of at (longest_run g item.now (maximum max) at) }
    ensures at_end { let g = text_scene view.now classes.now
        in result.at_end ≡ run_reaches g item.now (maximum max) at
        (longest_run g item.now (maximum max) at) }
    ensures tests { let g = text_scene view.now classes.now
        in steps.new ≡ steps.old + run_tests g item.now (maximum max) at
        (longest_run g item.now (maximum max) at) }
    ensures few { steps.new ≤ steps.old + (result.count + 1) }
{
    let walk = if view.options.utf {
        text_walk(view, classes, item, at, max, steps)
    } else {
        byte_walk(view, classes, item, at, max, steps)
    };
    ItemRun {
        count: walk.count,
        to: walk.to,
        at_end: reaches(view, item, at, walk.to, walk.count < max),
    }
}

/// The longest run where each character is a byte.
fn byte_walk<L: Ledger>(
    view: &View<'_>,
    classes: &ClassTable,
    item: &Item,
    at: usize,
    max: u32,
    steps: &mut Steps<L>,
) -> Walk
    requires subject { IsSubject view.now.options.now view.now.subject.now }
    requires place { at ≤ length view.now.subject.now }
    requires class { All (λ n. n < length classes.now) (class_in item.now) }
    ensures walk { IsWalk (text_scene view.now classes.now) item.now max at result }
    ensures place { IsTextPlace view.now.options.now view.now.subject.now result.to }
    ensures tests { let g = text_scene view.now classes.now
        in steps.new ≡ steps.old + run_tests g item.now (maximum max) at
        (longest_run g item.now (maximum max) at) }
    ensures few { steps.new ≤ steps.old + (result.count + 1) }
{
    let limit = view.subject.len().min(at + max as usize);
    let to = run_end(view, classes, item, at, limit, steps);
    Walk {
        count: (to - at) as u32,
        to,
    }
}

/// The first place before a limit at which the item doesn't take the character, or the limit.
fn run_end<L: Ledger>(
    view: &View<'_>,
    classes: &ClassTable,
    item: &Item,
    from: usize,
    limit: usize,
    steps: &mut Steps<L>,
) -> usize
    requires subject { IsSubject view.now.options.now view.now.subject.now }
    requires ordered { from ≤ limit }
    requires within { limit ≤ length view.now.subject.now }
    requires class { All (λ n. n < length classes.now) (class_in item.now) }
    ensures end { let g = text_scene view.now classes.now in IsLeast
        (λ k. takes g item.now k (slice_index view.now.subject.now k) ≡ false) from limit result }
    ensures tests { steps.new ≡ steps.old + span_tests item.now from result limit }
{
    match *item {
        Item::Char { c, caseless } => char_run(view.subject, c, caseless, from, limit),
        Item::AnyAll => limit,
        Item::NotNewline => line_run(view, from, limit),
        Item::Class(class) => class_run(view.subject, classes, class, from, limit, steps),
    }
}

/// The end of a run of one character.
fn char_run(bytes: &[u8], c: u32, caseless: bool, from: usize, limit: usize) -> usize
    requires ordered { from ≤ limit }
    requires within { limit ≤ length bytes.now }
    ensures { IsLeast (λ k.
        (if caseless then ascii_fold c == ascii_fold (slice_index bytes.now k)
        else c == slice_index bytes.now k) ≡ false) from limit result }
{
    if caseless {
        folded_run(bytes, fold(false, c), from, limit)
    } else {
        byte_run(bytes, c, from, limit)
    }
}

fn byte_run(bytes: &[u8], c: u32, from: usize, limit: usize) -> usize
    requires ordered { from ≤ limit }
    requires within { limit ≤ length bytes.now }
    ensures { IsLeast (λ k. (c == slice_index bytes.now k) ≡ false) from limit result }
{
    for i in from..limit {
        if c != bytes[i] as u32 {
            return i;
        }
    }
    limit
}

fn folded_run(bytes: &[u8], folded: u32, from: usize, limit: usize) -> usize
    requires ordered { from ≤ limit }
    requires within { limit ≤ length bytes.now }
    ensures { IsLeast (λ k. (folded == ascii_fold (slice_index bytes.now k)) ≡ false)
        from limit result }
{
    for i in from..limit {
        if folded != fold(false, bytes[i] as u32) {
            return i;
        }
    }
    limit
}

/// The end of a run of a class.
fn class_run<L: Ledger>(
    bytes: &[u8],
    classes: &ClassTable,
    class: u32,
    from: usize,
    limit: usize,
    steps: &mut Steps<L>,
) -> usize
    requires ordered { from ≤ limit }
    requires within { limit ≤ length bytes.now }
    requires class { class < length classes.now }
    ensures end { IsLeast (λ k. table_has classes.now class (slice_index bytes.now k) ≡ false)
        from limit result }
    ensures tests { steps.new
        ≡ steps.old + ((result - from) + (if nat_lt result limit then 1 else 0)) }
{
    for i in from..limit {
        if !classes.has(class, bytes[i] as u32, steps) {
            return i;
        }
    }
    limit
}

/// The end of a run of characters at which no newline begins.
fn line_run(view: &View<'_>, from: usize, limit: usize) -> usize
    requires ordered { from ≤ limit }
    requires within { limit ≤ length view.now.subject.now }
    requires subject { IsSubject view.now.options.now view.now.subject.now }
    ensures { let kind = end_kind view.now.options.now.newline false in IsLeast
        (λ k. (newline_len kind view.now.subject.now k == 0) ≡ false) from limit result }
{
    // A newline that begins before the limit has one byte past it at most.
    let near = view.subject.len().min(limit + 1);
    let end = find_line_end(
        &view.subject[..near],
        from,
        view.options.newline.end_kind(false),
    );
    end.at.min(limit)
}

/// Whether a run between two places reaches the subject's end. `fewer` says that it has fewer
/// characters than its maximum.
fn reaches(view: &View<'_>, item: &Item, from: usize, to: usize, fewer: bool) -> bool
    requires subject { IsText view.now.options.now view.now.subject.now }
    requires place { IsTextPlace view.now.options.now view.now.subject.now to }
    ensures { let g = bare_text view.now in result ≡ (is_end g to
        && (fewer || nat_lt from to && item_reaches g item.now (place_before g to))) }
{
    if to < view.subject.len() {
        return false;
    }
    fewer
        || from < to
            && matches!(item, Item::NotNewline)
            && is_half_newline(view, text_before(view, to))
}
