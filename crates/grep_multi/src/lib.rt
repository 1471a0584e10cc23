//! Inputs that are held whole, and the blocks of lines that matches take in them.
#![tactic(auto)]

mod blocks;
mod cut;
mod held;

pub use blocks::{Block, Search};
pub use cut::{LineStart, Reach, line_at};
pub use grep_match::{MatchList, Mode, Patterns, Place, Verdict, Workspace, line_end, mode_of};
pub use held::{Held, HoldError, Text, hold};
