//! Compiled patterns as bytes.
#![tactic(auto)]

mod errors;
mod fields;
mod laws;
mod marks;
mod nodes;
mod pile;
mod reading;
mod saved;
mod tables;
mod taken_nodes;
mod taken_tables;
mod taking;
mod writing;

pub use errors::{LoadError, SaveError};
pub use laws::worked_rows;
pub use reading::read;
pub use saved::{Image, Saved, SavedList, Text};
pub use writing::write;
