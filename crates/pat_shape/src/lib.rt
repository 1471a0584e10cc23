//! A pattern's tree as one of the kit's, made wider where the kit has no such form.
#![tactic(auto)]

mod laws;
mod lines;
mod pieces;
mod plain;
mod shape;

pub use laws::{
    match_where_shape_matches, matches_stay_in_lines, no_match_before_shape,
    no_match_in_lines_before, no_match_without_shape, place_without_shape,
};
pub use lines::{LineShape, line_shape};
pub use shape::shape_of;
