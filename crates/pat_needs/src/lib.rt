//! What every match of a pattern needs: a text of which it takes one (docs/SPEED.md, "A text that every match needs").
#![tactic(auto)]

mod choice;
mod lacking;
mod needs;
mod same;
mod text;
mod weights;

pub use needs::{BeginText, Need, need_of};
pub use pat_bounds::{Bound, Growth};
pub use text::ByteText;
