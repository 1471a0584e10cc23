//! What a tool takes and writes: what its targets stand for, and results to one sink, messages to another, with a
//! status.
#![tactic(auto)]

mod laws;
mod status;
mod target;
mod write;

pub use laws::told_targets_stand_for_one_list;
pub use status::{say, status_of};
pub use target::Target;
pub use write::{text_if, write_texts};
