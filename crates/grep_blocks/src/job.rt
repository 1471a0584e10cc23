//! What is done with a text that is held.
use grep_multi::{LineStart, Search};
use grep_output::{Ended, Show};

/// What is done with the blocks of a text.
#[derive(Clone, Copy)]
pub struct Job<'a> {
    pub search: Search<'a>,
    pub name: &'a str,
    /// Whether a group of lines of an earlier input was shown.
    pub has_shown: bool,
    pub show: Show,
    /// How many blocks are selected at most.
    pub most: Option<u32>,
    /// How a scan ends that goes to the end of the text.
    pub finish: Ended,
}

/// How a scan stands between two blocks.
#[derive(Clone, Copy, Debug, PartialEq, Eq)]
pub struct Course {
    /// Where the next block begins.
    pub from: LineStart,
    /// Where the lines behind the last selected block begin, or all lines where there is none.
    pub gap: LineStart,
    /// How many blocks were selected.
    pub selected: u64,
    /// How many match errors there were in the run.
    pub errors: u32,
}

/// What follows a block.
#[derive(Clone, Copy, Debug, PartialEq, Eq)]
pub enum Next {
    Block,
    /// No further block is selected.
    Context,
}
