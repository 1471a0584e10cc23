//! The records and the registers of a backtracking search: one stack of records, one set of registers, and the way back
//! to an earlier height of the stack, which takes back what was written to the registers since.
#![tactic(auto)]

mod gains;
pub mod kinds;
mod laws;
mod records;
mod registers;
mod store;

pub use laws::{entry_laws, undo_laws, worked_rows};
pub use records::Record;
pub use registers::{Registers, Span, captured, set_captured};
pub use store::{Memory, Store};
