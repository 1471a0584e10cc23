//! Tries of a branch of a lookbehind whose lengths differ (pcre2pattern, "Lookbehind assertions").
ghost use Rattle.std.specs.Prelude.{◌≡◌, ◌≤◌, ◌<◌, ◌+◌, length};
ghost use Rattle.frame_store.specs.Stack.{room};
ghost use Rattle.frame_store.specs.Entry.{entries};
ghost use Rattle.frame_state.specs.Steps.{over, StepsOn, StopsThere, KeepsPeak, IsShortAt};
ghost use Rattle.frame_state.specs.Machine.{place_at};
ghost use Rattle.frame_state.specs.Validity.{IsValid};
ghost use Rattle.frame_looks.specs.Tries.{settled_next};

use frame_state::behind::begin_back;
use frame_state::machine::{Next, Spot, Stop, hold};
use frame_state::searchable::Searchable;
use frame_store::kinds::{KIND_LATER_TRY, KIND_UNDO};
use frame_store::{Span, Store};

/// Tries a branch from so many characters back, and leaves the tries from fewer, down to its least length.
pub fn try_branch<S: Searchable>(
    on: &S,
    branch: u32,
    count: u32,
    spot: &mut Spot,
    store: &mut Store,
    registers: &[Option<Span>],
) -> Result<Next, Stop>
    requires valid { IsValid (S.searched on.now)
        (over (Next.Try branch count) spot.old store.old registers.now) }
    ensures on { StepsOn (S.searched on.now)
        (over (Next.Try branch count) spot.old store.old registers.now)
        spot.new store.new registers.now result }
    ensures stop { StopsThere (S.searched on.now)
        (over (Next.Try branch count) spot.old store.old registers.now)
        spot.new registers.now result }
    ensures peak { KeepsPeak (S.searched on.now) store.old store.new }
    ensures no_less { room store.old ≤ room store.new }
    ensures short { IsShortAt (S.searched on.now) store.new result }
{
    let least = on.back(branch).least;
    let to = on.step_back(spot.place, count);
    if spot.left == 0 {
        return Err(Stop::MatchLimit);
    }
    if count <= least {
        spot.left -= 1;
        return Ok(begin_back(branch, to, spot));
    }
    let record = spot.record(KIND_LATER_TRY, branch, count - 1, 0, 0);
    if let Err(stop) = hold(on.unit_limit(), record, spot, store) {
        return Err(stop);
    }
    spot.left -= 1;
    Ok(begin_back(branch, to, spot))
}

/// Where the innermost frame began; 0 outside all frames.
fn frame_place(spot: &Spot, store: &Store) -> u64
    requires { spot.now.frame ≤ length store.now.records }
    ensures { result ≡ place_at (entries store.now.records) spot.now.frame }
{
    if spot.frame == 0 {
        return 0;
    }
    let frame = store.get(spot.frame as usize - 1);
    // no frame's record is one of these, which keep no place
    if frame.kind == KIND_UNDO || frame.kind > KIND_LATER_TRY {
        return 0;
    }
    frame.place
}

/// Goes on where a try has ended, if it ended at the place of its lookbehind.
pub fn settle(spot: &Spot, store: &Store) -> Next
    requires { spot.now.frame ≤ length store.now.records }
    ensures { result ≡ settled_next spot.now.place
        (place_at (entries store.now.records) spot.now.frame) }
{
    if spot.place == frame_place(spot, store) {
        Next::End
    } else {
        Next::Back
    }
}
