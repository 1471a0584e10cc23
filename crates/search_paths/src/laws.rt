//! The law on paths.
ghost use Rattle.search_paths.specs.PathLaw.{PathLaw};

/// What a machine meets that goes through each part before what follows it, as pcre2matching tells of "The standard
/// matching algorithm", is the search: it answers the same at each place.
pub fn paths_are_the_search()
    ensures { PathLaw }
{}
