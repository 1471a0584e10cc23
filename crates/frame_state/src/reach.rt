//! The subject's end is reached (pcre2partial, "Partial matching in PCRE2").
ghost use Rattle.std.specs.Prelude.{◌≡◌, true, IfOk, IfErr, OnOk};
ghost use Rattle.frame_state.specs.Ground.{IsPart};
ghost use Rattle.frame_state.specs.Reach.{IsNoted, IsTested, IsHardStop};
ghost use Rattle.frame_state.specs.Stops.{moved_next, moved_spot};

use crate::framing::go_on;
use crate::machine::{Met, Next, Spot, Stop};
use crate::searchable::Searchable;
use pat_tree::PartialMode;

/// Notes that a path reached the subject's end, if it did and that counts. `early` is the earliest
/// place that the path inspected. Under hard partial matching the match ends there.
pub fn reach<S: Searchable>(on: &S, reached: bool, early: u64, met: &mut Met) -> Result<(), Stop>
    ensures on { OnOk result (IsNoted (S.searched on.now) reached early met.old met.new) }
    ensures stop { IfErr result
        (λ stop. IsHardStop (S.searched on.now) reached early met.old met.new stop) }
{
    if !reached || !on.counts(early) {
        return Ok(());
    }
    match on.matching().partial {
        PartialMode::Off => Ok(()),
        PartialMode::Soft => {
            met.hit = true;
            Ok(())
        }
        PartialMode::Hard => Err(Stop::Partial),
    }
}

/// Goes on at a place, if there is one.
fn move_to<S: Searchable>(on: &S, part: u32, to: Option<u64>, spot: &mut Spot) -> Next
    requires { IsPart (S.searched on.now) part }
    ensures next { result ≡ moved_next (S.searched on.now) part to }
    ensures spot { spot.new ≡ moved_spot spot.old to }
{
    match to {
        None => Next::Back,
        Some(place) => {
            spot.place = place;
            go_on(on, part)
        }
    }
}

/// Goes on after a test at the place behind what it took, if it took something.
pub fn pass<S: Searchable>(
    on: &S,
    part: u32,
    reached: bool,
    to: Option<u64>,
    spot: &mut Spot,
) -> Result<Next, Stop>
    requires { IsPart (S.searched on.now) part }
    ensures on { IfOk result
        (λ next. IsTested (S.searched on.now) part reached to spot.old next spot.new) }
    ensures stop { IfErr result
        (λ stop. IsHardStop (S.searched on.now) reached spot.old.early spot.old.last spot.new.last
        stop) }
{
    if let Err(stop) = reach(on, reached, spot.early, &mut spot.last) {
        return Err(stop);
    }
    Ok(move_to(on, part, to, spot))
}
