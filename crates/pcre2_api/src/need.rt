//! Searches that need not be made.
ghost use Rattle.std.specs.Prelude.{◌≡◌, ◌+◌, ◌<◌, ◌≤◌, IsTrue};
ghost use Rattle.pat_bounds.specs.Bounds.{at};
ghost use Rattle.ordered_search.specs.Setting.{lower_of};

use pat_needs::Need;
use pat_tree::{MatchOptions, Options};

/// The greatest number of Steps at a place: the pattern may lower that of the match.
fn match_limit(options: &Options, matching: &MatchOptions) -> u32
    ensures { result ≡ lower_of options.now.match_limit matching.now.match_limit }
{
    match options.match_limit {
        Some(limit) => limit.min(matching.match_limit),
        None => matching.match_limit,
    }
}

/// Whether a search of a subject of at most so many bytes that lacks the needed text passes no
/// limit. No subject has as many as the greatest number says.
pub(crate) fn is_within(need: &Need, most: u32, options: &Options, matching: &MatchOptions) -> bool
    ensures steps { IsTrue result → at need.now.lacking.steps (most + 1)
        ≤ lower_of options.now.match_limit matching.now.match_limit }
    ensures units { IsTrue result → at need.now.lacking.units (most + 1)
        ≤ matching.now.frame_limit }
    ensures short { IsTrue result → most < 4294967295 }
{
    if most == u32::MAX {
        return false;
    }
    let size = u64::from(most) + 1;
    let bound = &need.lacking;
    bound.units.is_within(size, matching.frame_limit)
        && bound.steps.is_within(size, match_limit(options, matching))
}

/// Whether a subject may have so many bytes. None has as many as the greatest number says.
pub(crate) fn is_length(most: u32) -> bool
    ensures { IsTrue result → most < 4294967295 }
{
    most < u32::MAX
}
