//! Laws on searches for patterns whose matches a wider expression matches.
ghost use Rattle.pat_shape.specs.Exact.{FoundLaw};
ghost use Rattle.pat_shape.specs.Looks.{InsideLaw};
ghost use Rattle.pat_shape.specs.Wide.{FirstLaw, LineLaw, NoMatchLaw, PlaceLaw};

/// A place from which the shape matches nothing fails, no limit is passed, and nothing is told.
pub fn place_without_shape()
    ensures { PlaceLaw }
{}

/// Where the shape isn't found there is no match.
pub fn no_match_without_shape()
    ensures { NoMatchLaw }
{}

/// The places before the one where the shape is first found fail.
pub fn no_match_before_shape()
    ensures { FirstLaw }
{}

/// A line that ends in a text before the place where the shape is first found has no match.
pub fn no_match_in_lines_before()
    ensures { LineLaw }
{}

/// Where the shape of a plain pattern matches from a place on there is a match.
pub fn match_where_shape_matches()
    ensures { FoundLaw }
{}

/// What takes no LF and matches from a place of a line on, in a text that holds the line, matches in the line.
pub fn matches_stay_in_lines()
    ensures { InsideLaw }
{}
