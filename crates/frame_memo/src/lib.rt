//! What a search remembers of its failures: at which sites and places it failed, and at what cost,
//! so that it needs not fail there again.
#![tactic(auto)]

mod failure;
mod memo;
mod slots;
#[cfg(test)]
mod tests;
mod worth;

pub use failure::{Cost, Failure, Key};
pub use memo::Memo;
pub use worth::Worth;
