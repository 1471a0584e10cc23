//! What a search at one place answers.
ghost use Rattle.std.specs.Prelude.{◌≡◌};
ghost use Rattle.std.specs.Option.{option_or};
ghost use Rattle.frame_state.specs.Answer.{answer_at, signal_by};
ghost use Rattle.frame_state.specs.Machine.{mark_of};

use crate::machine::{Acting, Spot, Stop};

/// How a start place failed, and so which place follows (pcre2pattern, "Backtracking control").
#[derive(Clone, Copy, Debug, PartialEq, Eq)]
pub enum Signal {
    /// All paths were tried.
    Exhausted,
    /// PRUNE was backtracked onto.
    Prune,
    /// SKIP was backtracked onto, which names the next start place.
    Skip(usize),
    /// COMMIT was backtracked onto.
    Commit,
}

/// What a search at one place answers. Places are in bytes.
#[derive(Clone, Copy, Debug, PartialEq, Eq)]
pub enum PlaceAnswer {
    /// A match from `keep` to `to`, and the number of the last name on its path.
    Matched {
        keep: usize,
        to: usize,
        mark: Option<u32>,
    },
    /// No match, and whether the subject's end was reached.
    Failed {
        signal: Signal,
        hit_end: bool,
    },
    /// A partial match.
    Partial,
    /// More Steps were needed than the match limit allows.
    MatchLimit,
    /// A path needed more units than the frame limit allows.
    FrameLimit,
    /// A call at the place of an active call of the same group.
    Loop,
    /// A callout ended the match with this number.
    Abort(i32),
    /// There was no memory left.
    Memory,
}

/// A mark as a number, which is kept as one more.
pub fn mark_of(mark: u32) -> Option<u32>
    ensures { result ≡ mark_of mark }
{
    if mark == 0 { None } else { Some(mark - 1) }
}

/// The last name, kept as one more, or the earlier one where none was met.
pub fn last_of(last: u32, earlier: Option<u32>) -> Option<u32>
    ensures { result ≡ option_or (mark_of last) earlier }
{
    if last == 0 { earlier } else { Some(last - 1) }
}

/// How a start place failed where a verb did that was backtracked onto.
fn signal_by(acting: Acting) -> Signal
    ensures { result ≡ signal_by acting }
{
    match acting {
        Acting::Prune => Signal::Prune,
        Acting::Skip(to) => Signal::Skip(to as usize),
        Acting::Commit => Signal::Commit,
    }
}

/// The answer where the machine stops so.
pub fn answer_of(stop: Stop, spot: &Spot) -> PlaceAnswer
    ensures { result ≡ answer_at stop spot.now }
{
    match stop {
        Stop::Match => PlaceAnswer::Matched {
            keep: spot.keep as usize,
            to: spot.place as usize,
            mark: mark_of(spot.mark),
        },
        Stop::NoMatch => PlaceAnswer::Failed {
            signal: Signal::Exhausted,
            hit_end: spot.last.hit,
        },
        Stop::Partial => PlaceAnswer::Partial,
        Stop::Verb(acting) => PlaceAnswer::Failed {
            signal: signal_by(acting),
            hit_end: spot.last.hit,
        },
        Stop::MatchLimit => PlaceAnswer::MatchLimit,
        Stop::FrameLimit => PlaceAnswer::FrameLimit,
        Stop::Loop => PlaceAnswer::Loop,
        Stop::Abort(n) => PlaceAnswer::Abort(n),
        Stop::Memory => PlaceAnswer::Memory,
    }
}
