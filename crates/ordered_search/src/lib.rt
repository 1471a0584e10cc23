//! What a search for a pattern means, with its laws: the ordered search of a tree at one start place, and over all
//! start places (pcre2matching, "The standard matching algorithm"). No call here searches: a matcher proves that it
//! answers so.
#![tactic(auto)]

mod laws;

pub use laws::{
    cut_comes_late, later_places_fail, no_partial_match, no_place_is_cut, searches_go_forward,
    walk_is_told, worked_rows,
};
