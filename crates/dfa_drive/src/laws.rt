//! Laws on a search for all ends.
ghost use Rattle.dfa_drive.specs.Common.{CommonLaw};
ghost use Rattle.dfa_drive.specs.Enough.{EnoughPlaces};

/// The patterns of whose ends both matchers say the same are those that the search for all ends
/// supports, without verbs but FAIL, calls, callouts and atomic groups, and whose minima are at most
/// their maxima.
pub fn common_forms_are_supported()
    ensures { CommonLaw }
{}

/// The number of places that the definition of the search is given cuts none off: with more of them
/// it answers the same, where the search begins in its subject.
pub fn places_are_enough()
    ensures { EnoughPlaces }
{}
