//! One item, reference or simple assertion of a pattern at one place of a subject: what it takes, whether it holds, and
//! whether the test reaches the subject's end (pcre2pattern, pcre2partial). No call takes memory.
#![tactic(auto)]

mod anchors;
mod backward;
mod items;
mod laws;
mod references;
mod runs;
mod uncounted;
mod view;
mod walks;

pub use anchors::{anchor, break_step};
pub use backward::{text_back, text_before};
pub use items::step;
pub use laws::{places_stand, tables_show_classes, worked_rows};
pub use references::ref_step;
pub use runs::run_len;
pub use uncounted::{item_run, item_step};
pub use view::{Held, ItemRun, Taken, View};
