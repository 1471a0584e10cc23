//! Laws on searches over all start places.
ghost use Rattle.search_starts.specs.StartLaw.{StartLaw};

/// Start optimisations change no answer (pcre2api, "Option bits for pcre2_compile()",
/// PCRE2_NO_START_OPTIMIZE): for a pattern without verbs, callouts and calls, and without partial
/// matching, a search that passes no limit without them gives the same with them.
pub fn starts_are_the_same()
    ensures { StartLaw }
{}
