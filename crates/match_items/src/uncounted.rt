//! The tests of items where nobody counts the tests of classes: each has a counter of its own.
ghost use Rattle.std.specs.Prelude.{◌≡◌, ◌<◌, All, length};
ghost use Rattle.pat_tree.specs.Rules.{class_in};
ghost use Rattle.match_items.specs.Subjects.{IsText, IsTextPlace};
ghost use Rattle.match_items.specs.Items.{after_item, item_reaches, longest_run, run_reaches};
ghost use Rattle.match_items.specs.Views.{text_scene, told, maximum, end_of};

use crate::items::step;
use crate::runs::run_len;
use crate::view::{ItemRun, Taken, View};
use char_sets::ClassTable;
use pat_tree::{Item, Steps};
use std::marker::Brand;
use std::sync::ledger::{Blank, Ledger};

/// Tests one item at a place as `step` does, and needs what it needs.
pub fn item_step(view: &View<'_>, classes: &ClassTable, item: &Item, at: usize) -> Taken
    requires subject { IsText view.now.options.now view.now.subject.now }
    requires place { IsTextPlace view.now.options.now view.now.subject.now at }
    requires class { All (λ n. n < length classes.now) (class_in item.now) }
    ensures { let g = text_scene view.now classes.now
        in result ≡ told (after_item g item.now at) (item_reaches g item.now at) }
{
    counted_step::<Brand>(view, classes, item, at, Blank::new(1))
}

/// The longest run of an item from a place on as `run_len` gives it, and needs what it needs.
pub fn item_run(view: &View<'_>, classes: &ClassTable, item: &Item, at: usize, max: u32) -> ItemRun
    requires subject { IsText view.now.options.now view.now.subject.now }
    requires place { IsTextPlace view.now.options.now view.now.subject.now at }
    requires class { All (λ n. n < length classes.now) (class_in item.now) }
    ensures count { let g = text_scene view.now classes.now
        in result.count ≡ length (longest_run g item.now (maximum max) at) }
    ensures to { let g = text_scene view.now classes.now
        in result.to ≡ end_of at (longest_run g item.now (maximum max) at) }
    ensures at_end { let g = text_scene view.now classes.now
        in result.at_end ≡ run_reaches g item.now (maximum max) at
        (longest_run g item.now (maximum max) at) }
{
    counted_run::<Brand>(view, classes, item, at, max, Blank::new(1))
}

fn counted_step<L: Ledger>(
    view: &View<'_>,
    classes: &ClassTable,
    item: &Item,
    at: usize,
    blank: Blank,
) -> Taken
    requires name { blank.name ≡ L.name }
    requires parts { blank.parts ≡ L.parts }
    requires one { blank.parts ≡ 1 }
    requires subject { IsText view.now.options.now view.now.subject.now }
    requires place { IsTextPlace view.now.options.now view.now.subject.now at }
    requires class { All (λ n. n < length classes.now) (class_in item.now) }
    ensures { let g = text_scene view.now classes.now
        in result ≡ told (after_item g item.now at) (item_reaches g item.now at) }
{
    let mut steps = Steps::<L>::new(blank);
    step(view, classes, item, at, &mut steps)
}

fn counted_run<L: Ledger>(
    view: &View<'_>,
    classes: &ClassTable,
    item: &Item,
    at: usize,
    max: u32,
    blank: Blank,
) -> ItemRun
    requires name { blank.name ≡ L.name }
    requires parts { blank.parts ≡ L.parts }
    requires one { blank.parts ≡ 1 }
    requires subject { IsText view.now.options.now view.now.subject.now }
    requires place { IsTextPlace view.now.options.now view.now.subject.now at }
    requires class { All (λ n. n < length classes.now) (class_in item.now) }
    ensures count { let g = text_scene view.now classes.now
        in result.count ≡ length (longest_run g item.now (maximum max) at) }
    ensures to { let g = text_scene view.now classes.now
        in result.to ≡ end_of at (longest_run g item.now (maximum max) at) }
    ensures at_end { let g = text_scene view.now classes.now
        in result.at_end ≡ run_reaches g item.now (maximum max) at
        (longest_run g item.now (maximum max) at) }
{
    let mut steps = Steps::<L>::new(blank);
    run_len(view, classes, item, at, max, &mut steps)
}
