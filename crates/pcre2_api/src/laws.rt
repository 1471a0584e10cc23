//! Laws on the definitions, and worked rows of them.
ghost use Rattle.pcre2_api.specs.Enough.{EnoughSearches};
ghost use Rattle.pcre2_api.specs.WorkedSubstitutions.{WorkedRows};

/// The number of searches that the definition of the matches of a subject is given cuts none off:
/// with more than two a place the matches are the same.
pub fn searches_are_enough()
    ensures { EnoughSearches }
{}

/// Substitutions computed from the definition, each as pcre2test has it.
pub fn worked_substitutions()
    ensures { WorkedRows }
{}
