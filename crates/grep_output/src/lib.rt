//! What pcre2grep writes of the lines of an input, of the input as a whole, and in messages about
//! it. Each call that writes answers what its sink refuses; then a part of its text was written.
#![tactic(auto)]

mod earlier;
mod ended;
mod lines;
mod messages;
mod parts;
mod shows;
mod state;
mod summary;

pub use earlier::EarlierLines;
pub use ended::{Ended, FileEnd, Stop};
pub use lines::write_line;
pub use messages::{write_ended, write_error, write_message, write_too_many};
pub use parts::{write_in_line, write_match, write_matches};
pub use shows::{Show, Treatment, most_selected, show_in, tells_binary, treatment_by};
pub use state::State;
pub use summary::write_summary;
