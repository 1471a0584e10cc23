//! Laws on the definitions, and worked rows.
ghost use Rattle.ordered_search.specs.Forward.{ForwardLaw};
ghost use Rattle.ordered_search.specs.LaterPlaces.{LaterPlacesLaw};
ghost use Rattle.ordered_search.specs.Laws.{CutLaw, NoCutAnswer, NoPartialLaw, WalkLaw};
ghost use Rattle.ordered_search.specs.MatchRows as over_places;
ghost use Rattle.ordered_search.specs.PlaceRows as at_place;

/// The depth that a stream is given is used up only after as many Steps.
pub fn cut_comes_late()
    ensures { CutLaw }
{}

/// So no start place is answered by it: the depth is one more than the match limit.
pub fn no_place_is_cut()
    ensures { NoCutAnswer }
{}

/// A place is answered by the first event that gives an answer, after no more Steps than the match limit; its names,
/// callouts and hits of the subject's end are those before that event.
pub fn walk_is_told()
    ensures { WalkLaw }
{}

/// Without partial matching a search finds no partial match (pcre2partial, "Partial matching in PCRE2").
pub fn no_partial_match()
    ensures { NoPartialLaw }
{}

/// A search, in UTF or outside it: a match lies in the subject at the start or past it, with its captures, and a
/// partial match begins there; else there is none, a limit is passed, a group is called at the place of an active call
/// of it, or a callout ends the search.
pub fn searches_go_forward()
    ensures { ForwardLaw }
{}

/// In a search of bytes that goes by the place alone, where a pattern begins with a greedy repeat
/// of one item without a maximum: a place that fails has all later ones fail up to the end of the
/// item's run from there (pcre2pattern, "Repetition").
pub fn later_places_fail()
    ensures { LaterPlacesLaw }
{}

/// The definitions computed. At one place: both limits, with the last Step and the last unit that they leave. Over all
/// start places: captures, lookarounds, verbs, partial matches, start places, callouts and names.
pub fn worked_rows()
    ensures at_place { at_place.WorkedRows }
    ensures over_places { over_places.WorkedRows }
{}
