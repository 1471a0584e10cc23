//! Characters of a pattern or a subject: the one that begins at a place, the one that ends there, their properties and
//! foldings.
//!
//! Without UTF a character is one byte. In UTF it is one code point, in the bytes of RFC 3629 (pcre2unicode). The
//! tables are those of Unicode 18.0.
#![tactic(auto)]

mod characters;
mod folding;
mod laws;
mod names;
mod properties;
mod utf;
mod words;

pub use characters::{char_at, char_before};
pub use folding::fold;
pub use laws::{
    foldings_are_fixed, numbers_are_inverse, others_have_no_property,
    places_are_between_characters, valid_part_is_longest, worked_foldings, worked_properties,
    worked_rows,
};
pub use properties::{Prop, has_prop, is_horizontal, is_vertical};
pub use ucd_category::{GeneralCategory, GeneralCategoryGroup};
pub use ucd_script::Script;
pub use utf::{BadUtf, check};
pub use words::is_word;
