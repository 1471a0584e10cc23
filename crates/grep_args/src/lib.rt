//! The words of pcre2grep: what they ask for.
#![tactic(auto)]

mod effects;
mod laws;
mod letters;
mod numbers;
mod options;
mod plan;
mod reading;
mod table;
mod usage;
mod words;

pub use laws::{last_values_count, offsets_exclude_groups, worked_faults, worked_plans};
pub use options::FilterOption;
pub use plan::{BinaryMode, GrepPlan, HelpKind, NameMode, OffsetMode};
pub use reading::read;
pub use usage::{ArgError, UsageKind};
