//! The modifiers of pcre2test: their lists, their values, and why a list is refused.
#![tactic(auto)]

mod effects;
mod kinds;
mod laws;
mod lists;
mod modifiers;
mod refusal;
mod spaces;
mod table;

pub use laws::worked_lists;
pub use lists::{after, read_list};
pub use modifiers::Modifiers;
pub use refusal::{ListError, Refusal};
pub use spaces::{Space, begins_white, is_white};
