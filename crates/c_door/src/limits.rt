//! Matches that begin behind the offset limit count as none (pcre2api, "Setting an offset limit in
//! the match context").
ghost use Rattle.std.specs.Prelude.{◌≡◌};
ghost use Rattle.c_door.specs.Limits.{is_behind, first_from, begin_told, limited, ends_begin_told, limited_ends};

use crate::told::{Hit, Pair};
use pcre2_api::{DfaError, DfaFound, MatchError};

/// Whether a place, counted from another one on, is behind the limit, which counts from the front.
fn is_behind(limit: u64, from: usize, at: u64) -> bool
    ensures { result ≡ is_behind limit from at }
{
    limit < from as u64 || limit - (from as u64) < at
}

fn first_from(places: &[Pair]) -> Option<u64>
    ensures { result ≡ first_from places.now }
{
    if places.is_empty() {
        None
    } else {
        Some(places[0].from)
    }
}

/// Where the match begins that is told, or the partial one.
fn begin_told(told: &Result<Hit, MatchError>, places: &[Pair]) -> Option<u64>
    ensures { result ≡ begin_told places.now told.now }
{
    match told {
        Ok(_) => first_from(places),
        Err(MatchError::Partial { start, .. }) => Some(*start as u64),
        Err(_) => None,
    }
}

/// What is told under an offset limit of a match in the part of the subject from a place on.
pub(crate) fn limited(
    limit: u64,
    from: usize,
    told: Result<Hit, MatchError>,
    places: &[Pair],
) -> Result<Hit, MatchError>
    ensures { result ≡ limited limit from places.now told }
{
    match begin_told(&told, places) {
        Some(at) if is_behind(limit, from, at) => Err(MatchError::NoMatch { mark: None }),
        _ => told,
    }
}

/// Where the match by all ends begins that is told, or the partial one.
fn ends_begin_told(told: &Result<DfaFound, DfaError>) -> Option<u64>
    ensures { result ≡ ends_begin_told told.now }
{
    match told {
        Ok(found) => Some(found.start as u64),
        Err(DfaError::Partial { start, .. }) => Some(*start as u64),
        Err(_) => None,
    }
}

/// The same of a match by all ends.
pub(crate) fn limited_ends(
    limit: u64,
    told: Result<DfaFound, DfaError>,
) -> Result<DfaFound, DfaError>
    ensures { result ≡ limited_ends limit told }
{
    match ends_begin_told(&told) {
        Some(at) if is_behind(limit, 0, at) => Err(DfaError::NoMatch),
        _ => told,
    }
}
