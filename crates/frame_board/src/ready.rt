//! A pattern made ready for searches.
use char_sets::ClassTable;
use pat_check::Facts;
use pat_tree::Tree;

/// A pattern made ready for searches: its finished tree, the table of its classes, and what is known of it.
#[derive(Clone, Copy)]
pub struct Ready<'a> {
    pub tree: &'a Tree,
    pub classes: &'a ClassTable,
    pub facts: &'a Facts,
}
