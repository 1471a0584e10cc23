//! Patterns that are saved, and their images.
use pat_tree::{ListOf, Tree};

/// The text of a pattern.
pub type Text = ListOf<u8>;

/// The bytes that patterns are saved as.
pub type Image = ListOf<u8>;

/// A pattern's tree, and the text that it was read from.
#[derive(Debug, Drop)]
pub struct Saved {
    pub tree: Tree,
    pub text: Text,
}

/// Patterns that are saved together.
pub type SavedList = ListOf<Saved>;
