//! What a search over all start places goes over.
ghost use Rattle.std.specs.Prelude.{◌≡◌, ◌≤◌, ◌<◌, ℤ, max, length, IfSome, IsTrue};
ghost use Rattle.std.specs.Option.{option_copied};
ghost use Rattle.pcre_io.specs.declared.callouts.Block.{Block};
ghost use Rattle.match_items.specs.Subjects.{IsText, IsTextPlace};
ghost use Rattle.ordered_search.specs.pat_check.Known.{IsByteSet};
ghost use Rattle.frame_state.specs.Room.{IsQuiet};
ghost use Rattle.frame_machine.specs.Scratch.{HasRoom, IsOfSearch};
ghost use Rattle.frame_state.specs.Answer.{IsAnswer, IsMark, IsSeen, SkipsToPlace};
ghost use Rattle.ordered_search.specs.PlaceAnswer.{place_answer};
ghost use Rattle.ordered_search.specs.Setting.{Setting, lead_set, names_cr_or_lf};
ghost use Rattle.match_starts.specs.Asked.{passed_over, replied};
ghost use Rattle.match_drive.specs.Begin.{StandsAtBegin};
ghost use Rattle.match_drive.specs.BeginText.{IsBegun};
ghost use Rattle.match_drive.specs.Rest.{AreRefused, FailsToAlways};

use byte_lanes::ByteSet;
use frame_machine::{PlaceAnswer, Scratch};
use pat_needs::BeginText;
use pat_tree::{MatchOptions, Options};
use pcre_io::Callouts;

/// A pattern and a subject that are searched at one place after the other.
pub trait Driven {
    /// What the search is about, by what its callouts answer.
    ghost asked: { Self → (Block → ℤ) → Setting };

    /// What is needed of it.
    ghost fits: { Self → Type 0 };

    fn subject(&self) -> &[u8]
        requires { fits self.now }
        ensures { result.now ≡ (asked self.now passed_over).subject };

    fn start(&self) -> usize
        requires { fits self.now }
        ensures { result ≡ (asked self.now passed_over).start };

    fn options(&self) -> &Options
        requires { fits self.now }
        ensures { result.now ≡ (asked self.now passed_over).options };

    fn matching(&self) -> &MatchOptions
        requires { fits self.now }
        ensures { result.now ≡ (asked self.now passed_over).matching };

    /// The bytes that every match begins with, where they are known (pcre2api, "Option bits for pcre2_compile()",
    /// PCRE2_NO_START_OPTIMIZE).
    fn lead(&self) -> Option<&ByteSet>
        requires { fits self.now }
        ensures { IsByteSet (option_copied result) (lead_set (asked self.now passed_over)) };

    /// A text at a distance from where every match begins, where places without it are known to fail.
    fn begin(&self) -> Option<&BeginText>
        requires { fits self.now }
        ensures { IfSome (option_copied result) (IsBegun (asked self.now passed_over)) };

    /// Whether CR or LF stands in the pattern, as a character or as an end of a range.
    fn names_crlf(&self) -> bool
        requires { fits self.now }
        ensures { result ≡ names_cr_or_lf (asked self.now passed_over) };

    /// True only where every match begins at the subject's begin (pcre2pattern, "Circumflex and dollar").
    fn stands_at_begin(&self) -> bool
        requires { fits self.now }
        ensures { IsTrue result → StandsAtBegin (asked self.now passed_over).whole };

    /// The last place up to which this one and all behind it are known to fail, where this one is. None
    /// in UTF, where not each of them is one at which a character begins.
    fn refused_to(&self, place: usize) -> Option<usize>
        requires fits { fits self.now }
        requires place { let g = asked self.now passed_over in IsTextPlace g.options
            g.subject place }
        ensures { IfSome result (AreRefused (asked self.now passed_over) place) };

    /// The last place that is known to fail where this one fails, and all places between them with
    /// it. In UTF, where not each of them is one at which a character begins, the place itself.
    fn fails_to(&self, place: usize) -> usize
        requires fits { fits self.now }
        requires place { let g = asked self.now passed_over in IsTextPlace g.options
            g.subject place }
        ensures low { place ≤ result }
        ensures within { result ≤ length (asked self.now passed_over).subject }
        ensures alone { IsTrue (asked self.now passed_over).options.utf → result ≡ place }
        ensures fails { FailsToAlways (asked self.now passed_over) place result };

    /// Searches at one place.
    fn try_at<C: Callouts>(&self, place: usize, scratch: &mut Scratch, calls: &mut C) -> PlaceAnswer
        requires fits { fits self.now }
        requires start { (asked self.now passed_over).start ≤ place }
        requires place { IsTextPlace (asked self.now passed_over).options
            (asked self.now passed_over).subject place }
        ensures answer { IsAnswer result scratch.new.spans
            (place_answer (asked self.now (C.answers calls.old)) place) }
        ensures mark { IsMark result scratch.old.last_mark scratch.new.last_mark
            (place_answer (asked self.now (C.answers calls.old)) place) }
        ensures skip { SkipsToPlace (asked self.now passed_over).options
            (asked self.now passed_over).subject result }
        ensures peak { scratch.new.peak
            ≤ max scratch.old.peak (asked self.now passed_over).matching.frame_limit }
        ensures groups { scratch.new.groups ≡ scratch.old.groups }
        ensures frames { scratch.new.frames ≡ scratch.old.frames }
        ensures rule { (block : Block) → C.answers calls.new block ≡ C.answers calls.old block }
        ensures seen { IsSeen result (C.seen calls.old) (C.seen calls.new)
            (place_answer (asked self.now (C.answers calls.old)) place) }
        ensures reserved { HasRoom scratch.old (asked self.now passed_over).groups
            (asked self.now passed_over).matching.frame_limit
            → IsQuiet C.refuses (C.answers calls.old) → IsOfSearch result };

    ghost subject_is: { (x : Self) → fits x → IsText (asked x passed_over).options (asked x passed_over).subject };

    ghost start_is: { (x : Self) → fits x → IsTextPlace (asked x passed_over).options (asked x passed_over).subject
        (asked x passed_over).start };

    ghost alike: { (x : Self) (answers : Block → ℤ) → asked x answers ≡ replied (asked x answers).reply
        (asked x passed_over) };
}
