//! That a search by paths is the search of the definitions: a machine that goes through each part before what follows
//! it answers the same (pcre2matching, "The standard matching algorithm"). No call here searches.
#![tactic(auto)]

mod laws;

pub use laws::paths_are_the_search;
