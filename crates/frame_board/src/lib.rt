//! A finished tree over a subject, as the ordered search goes over it.
#![tactic(auto)]

mod board;
mod counted;
mod reaches;
mod ready;

pub use board::Board;
pub use ready::Ready;
