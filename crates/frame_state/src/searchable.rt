//! What a search goes over.
ghost use Rattle.std.specs.Prelude.{◌≡◌, ◌+◌, ◌<◌, ◌≤◌, ◌&&◌, true, All, length};
ghost use Rattle.pat_tree.specs.Rules.{class_in};
ghost use Rattle.match_items.specs.Items as items;
ghost use Rattle.match_items.specs.Items.{after_item, after_break, after_ref, longest_run, run_reaches, place_before};
ghost use Rattle.match_items.specs.Items.{holds, earliest, places_back};
ghost use Rattle.match_items.specs.Views.{end_of};
ghost use Rattle.pat_lengths.specs.Backs.{lengths_back};
ghost use Rattle.ordered_search.specs.Parts.{same_text};
ghost use Rattle.ordered_search.specs.Setting.{match_limit, branch_lengths, verb_name};
ghost use Rattle.ordered_search.specs.Places.{is_off};
ghost use Rattle.frame_state.specs.Reach.{asks, counts_from};
ghost use Rattle.frame_state.specs.Ground.{Ground, IsPart, IsNode, IsGround, next_of, settles, tree_of};
ghost use Rattle.frame_state.specs.Behind.{place_back};
ghost use Rattle.frame_state.specs.Begun.{IsFixedPart};
ghost use Rattle.frame_state.specs.Calls.{IsCalled};

use pat_lengths::Back;
use pat_tree::{AnchorKind, Item, MatchOptions, Node, Options};

/// A run of one item.
#[derive(Clone, Copy)]
pub struct Run {
    pub count: u32,
    /// The place after it.
    pub to: u64,
    /// Whether one of its tests reached the subject's end (pcre2partial).
    pub at_end: bool,
}

/// A pattern's numbered parts and the characters of a subject.
pub trait Searchable {
    ghost searched: { Self → Ground };

    fn root(&self) -> u32
        ensures { result ≡ (searched self.now).root };

    fn groups(&self) -> u32
        ensures { result ≡ (searched self.now).setting.groups };

    fn node(&self, part: u32) -> &Node
        requires { IsPart (searched self.now) part }
        ensures { IsNode (searched self.now) part result.now };

    fn next(&self, part: u32) -> Option<u32>
        requires { IsPart (searched self.now) part }
        ensures { result ≡ next_of (searched self.now) part };

    /// The innermost branch around a part in its frame, of a group or lookaround that has two or more.
    fn branch(&self, part: u32) -> Option<u32>
        requires { IsPart (searched self.now) part }
        ensures { result ≡ (searched self.now).branch part };

    /// Whether a try of a branch of a lookbehind, one whose lengths differ, ends with the part's frame.
    fn settles(&self, part: u32) -> bool
        requires { IsPart (searched self.now) part }
        ensures { result ≡ settles (searched self.now) part };

    /// The place of a part in the pattern: it stands before the parts under it, and these before those that follow it.
    fn rank(&self, part: u32) -> u32
        requires within { part ≤ (searched self.now).root }
        requires under { (searched self.now).under part ≡ true }
        ensures { result ≡ (searched self.now).rank part };

    /// The part that a call of this number runs, if there is one: a group, or for 0 the whole pattern.
    fn group(&self, number: u16) -> Option<u32>
        ensures { IsCalled (searched self.now) number result };

    fn options(&self) -> &Options
        ensures { result.now ≡ (searched self.now).setting.scene.options };

    fn matching(&self) -> &MatchOptions
        ensures { result.now ≡ (searched self.now).setting.scene.matching };

    fn start(&self) -> u64
        ensures { result ≡ (searched self.now).setting.scene.start };

    fn length(&self) -> u64
        ensures { result ≡ length (searched self.now).setting.scene.subject };

    fn take(&self, item: &Item, at: u64) -> Option<u64>
        requires place { (searched self.now).stands at ≡ true }
        requires class { All (λ n. n < (searched self.now).class_count) (class_in item.now) }
        ensures { result ≡ after_item (searched self.now).setting.scene item.now at };

    fn run(&self, item: &Item, at: u64, most: Option<u32>) -> Run
        requires place { (searched self.now).stands at ≡ true }
        requires class { All (λ n. n < (searched self.now).class_count) (class_in item.now) }
        ensures count { result.count
            ≡ length (longest_run (searched self.now).setting.scene item.now most at) }
        ensures to { result.to
            ≡ end_of at (longest_run (searched self.now).setting.scene item.now most at) }
        ensures at_end { result.at_end
            ≡ run_reaches (searched self.now).setting.scene item.now most at
            (longest_run (searched self.now).setting.scene item.now most at) };

    fn take_break(&self, at: u64) -> Option<u64>
        requires { (searched self.now).stands at ≡ true }
        ensures { result ≡ after_break (searched self.now).setting.scene at };

    fn refer(&self, from: u64, to: u64, caseless: bool, at: u64) -> Option<u64>
        requires from { (searched self.now).stands from ≡ true }
        requires to { (searched self.now).stands to ≡ true }
        requires place { (searched self.now).stands at ≡ true }
        ensures { result ≡ after_ref (searched self.now).setting.scene from to caseless at };

    fn holds(&self, kind: AnchorKind, at: u64) -> bool
        requires { (searched self.now).stands at ≡ true }
        ensures { result ≡ holds (searched self.now).setting.scene kind at };

    fn earliest(&self, kind: AnchorKind, at: u64, early: u64) -> u64
        requires { (searched self.now).stands at ≡ true }
        ensures { result ≡ earliest (searched self.now).setting.scene kind at early };

    /// Whether partial matches are not looked for.
    fn is_off(&self) -> bool
        ensures { result ≡ is_off (searched self.now).setting.scene.matching.partial };

    /// Whether it counts that the subject's end is reached on a path that inspected nothing earlier
    /// (pcre2partial, "Requirements for a partial match").
    fn counts(&self, early: u64) -> bool
        ensures { result ≡ counts_from (searched self.now).setting early };

    /// Whether the test of an item reaches the subject's end, where partial matches are looked for;
    /// and so of those below.
    fn item_reaches(&self, item: &Item, at: u64) -> bool
        requires { (searched self.now).stands at ≡ true }
        ensures { result ≡ (asks (searched self.now).setting
            && items.item_reaches (searched self.now).setting.scene item.now at) };

    fn break_reaches(&self, at: u64) -> bool
        requires { (searched self.now).stands at ≡ true }
        ensures { result ≡ (asks (searched self.now).setting
            && items.break_reaches (searched self.now).setting.scene at) };

    fn ref_reaches(&self, from: u64, to: u64, caseless: bool, at: u64) -> bool
        requires from { (searched self.now).stands from ≡ true }
        requires to { (searched self.now).stands to ≡ true }
        requires place { (searched self.now).stands at ≡ true }
        ensures { result ≡ (asks (searched self.now).setting
            && items.ref_reaches (searched self.now).setting.scene from to caseless at) };

    fn anchor_reaches(&self, kind: AnchorKind, at: u64) -> bool
        requires { (searched self.now).stands at ≡ true }
        ensures { result ≡ (asks (searched self.now).setting
            && items.anchor_reaches (searched self.now).setting.scene kind at) };

    fn before(&self, at: u64) -> u64
        requires { (searched self.now).stands at ≡ true }
        ensures { result ≡ place_before (searched self.now).setting.scene at };

    /// The place so many characters before another, if there are so many.
    fn step_back(&self, at: u64, count: u32) -> Option<u64>
        requires { (searched self.now).stands at ≡ true }
        ensures { result ≡ place_back (searched self.now).setting.scene count at };

    /// How many characters stand before a place, this number of them at most.
    fn room_before(&self, at: u64, most: u32) -> u32
        requires { (searched self.now).stands at ≡ true }
        ensures { result + 1 ≡ length (places_back (searched self.now).setting.scene most at) };

    /// The least and the greatest length of a branch of a lookbehind, in characters.
    fn back(&self, branch: u32) -> Back
        requires inside { IsPart (searched self.now) branch }
        requires fixed { IsFixedPart (searched self.now) branch }
        ensures { branch_lengths (searched self.now).setting (tree_of (searched self.now) branch)
            ≡ lengths_back result };

    /// Whether two numbers of verbs' names are of the same name. A number that is of none has the empty name.
    fn same_name(&self, first: u32, second: u32) -> bool
        ensures { result ≡ same_text (verb_name (searched self.now).setting first)
            (verb_name (searched self.now).setting second) };

    fn step_limit(&self) -> u32
        ensures { result ≡ match_limit (searched self.now).setting };

    fn unit_limit(&self) -> u32
        ensures { result ≡ (searched self.now).setting.scene.matching.frame_limit };

    ghost sound: { (x : Self) → IsGround (searched x) };
}
