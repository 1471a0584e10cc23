//! The classes of a pattern as tables: whether a class takes a character.
#![tactic(auto)]

mod bytes;
mod entry;
mod laws;
mod named;
mod ranges;
mod runs;
mod sets;
mod table;

pub use bytes::{add_range, both_cases};
pub use laws::{ranges_fold, worked_rows, worked_unicode};
pub use table::ClassTable;
