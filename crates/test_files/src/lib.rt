//! What the test programs share: the data files that a program's words name, their sections, and a report of what
//! differs in them.
#![tactic(auto)]

mod escapes;
mod files;
mod report;
mod sections;

pub use escapes::{escaped, unescaped};
pub use files::{Check, run};
pub use report::{Place, Report};
pub use sections::Section;
