//! What the tests look at, and what they answer.
use pat_tree::{MatchOptions, Options};

/// A subject with the start and the options of its search. All places are counted in bytes from 0.
#[derive(Clone, Copy)]
pub struct View<'a> {
    pub subject: &'a [u8],
    /// The place that was given to the call, where `\G` is true.
    pub start: usize,
    /// The pattern's options.
    pub options: &'a Options,
    /// The match's options.
    pub matching: &'a MatchOptions,
}

/// What a test took.
#[derive(Clone, Copy, Debug, PartialEq, Eq)]
pub enum Taken {
    /// Something that ends at this place.
    Took(usize),
    /// Nothing.
    No,
    /// Nothing, and the subject's end was reached (pcre2partial).
    AtEnd,
}

/// The longest run of an item.
#[derive(Clone, Copy, Debug, PartialEq, Eq)]
pub struct ItemRun {
    /// How many characters it has.
    pub count: u32,
    /// The place after it.
    pub to: usize,
    /// Whether one of its tests reached the subject's end (pcre2partial).
    pub at_end: bool,
}

/// What a simple assertion answers.
#[derive(Clone, Copy, Debug, PartialEq, Eq)]
pub struct Held {
    pub holds: bool,
    /// Whether it reached the subject's end (pcre2partial).
    pub at_end: bool,
}
