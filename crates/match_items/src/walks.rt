//! Runs over the characters of UTF-8.
ghost use Rattle.std.specs.Prelude.{◌≡◌, ℕ, ◌+◌, ◌<◌, ◌≤◌, All, length, IsTrue};
ghost use Rattle.pat_tree.specs.Rules.{class_in};
ghost use Rattle.match_items.specs.Subjects.{IsText, IsTextPlace};
ghost use Rattle.match_items.specs.Items.{longest_run};
ghost use Rattle.match_items.specs.Views.{text_scene, maximum, run_tests, IsWalk, IsPlainDot};

use crate::items::takes;
use crate::view::View;
use byte_lanes::find_past_plain;
use char_sets::ClassTable;
use pat_tree::{Item, Steps};
use std::sync::ledger::Ledger;
use uni_text::char_at;

/// How far a run goes.
#[derive(Clone, Copy)]
pub(crate) struct Walk {
    /// How many characters it has.
    pub count: u32,
    /// The place after them.
    pub to: usize,
}

/// The end of the characters of ASCII from a place on that `.` takes whatever ends a line, of
/// `most` of them at most. Each is a byte.
fn plain_run(view: &View<'_>, item: &Item, from: usize, most: u32) -> usize
    requires { from ≤ length view.now.subject.now }
    ensures low { from ≤ result }
    ensures few { result ≤ from + most }
    ensures within { result ≤ length view.now.subject.now }
    ensures plain { (k : ℕ) → from ≤ k → k < result
        → IsPlainDot item.now view.now.subject.now k }
{
    if !matches!(*item, Item::AnyAll | Item::NotNewline) {
        return from;
    }
    let limit = view.subject.len().min(from + most as usize);
    // A character past ASCII isn't worth a look at those behind it.
    if from == limit || view.subject[from] >= 128 {
        return from;
    }
    find_past_plain(&view.subject[..limit], from)
}

/// The longest run in UTF: of `.` the characters of ASCII at once, and others one by one.
pub(crate) fn text_walk<L: Ledger>(
    view: &View<'_>,
    classes: &ClassTable,
    item: &Item,
    at: usize,
    max: u32,
    steps: &mut Steps<L>,
) -> Walk
    requires utf { IsTrue view.now.options.now.utf }
    requires subject { IsText view.now.options.now view.now.subject.now }
    requires place { IsTextPlace view.now.options.now view.now.subject.now at }
    requires class { All (λ n. n < length classes.now) (class_in item.now) }
    ensures walk { IsWalk (text_scene view.now classes.now) item.now max at result }
    ensures place { IsTextPlace view.now.options.now view.now.subject.now result.to }
    ensures tests { let g = text_scene view.now classes.now
        in steps.new ≡ steps.old + run_tests g item.now (maximum max) at
        (longest_run g item.now (maximum max) at) }
    ensures few { steps.new ≤ steps.old + (result.count + 1) }
{
    let mut count = 0;
    let mut to = at;
    while count < max {
        let near = plain_run(view, item, to, max - count);
        if near > to {
            count += (near - to) as u32;
            to = near;
        } else {
            if to == view.subject.len() {
                return Walk { count, to };
            }
            let (c, next) = char_at(view.subject, to, true);
            if !takes(view, classes, item, to, c, steps) {
                return Walk { count, to };
            }
            count += 1;
            to = next;
        }
    }
    Walk { count, to }
}
