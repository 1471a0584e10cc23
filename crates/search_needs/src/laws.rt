//! The laws.
ghost use Rattle.search_needs.specs.Needed.{BeginLaw, NeedLaw};

/// Where a text stands nowhere that every match takes, and the bound of the pattern is within the
/// limits, or of one sequence that of its first parts, up to those that take the text, there is no
/// match, no limit is passed, and nothing is told.
pub fn no_match_without_need()
    ensures { NeedLaw }
{}

/// Where no text stands so far behind a place as every match takes one behind its begin, and the bound of the pattern
/// is within the limits, the place fails, no limit is passed, and nothing is told.
pub fn no_match_without_begin()
    ensures { BeginLaw }
{}
