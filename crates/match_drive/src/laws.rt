//! A law on the search over all start places.
ghost use Rattle.match_drive.specs.Enough.{EnoughPlaces};

/// The number of places that the definition of a search is given cuts none off: with more of them it
/// finds the same, where the search begins in its subject.
pub fn places_are_enough()
    ensures { EnoughPlaces }
{}
