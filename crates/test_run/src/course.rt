//! How a script stands between two lines.
use pat_tree::ByteList;
use pcre2_api::Code;
use test_modifiers::Modifiers;

/// What subject lines are searched for.
#[derive(Drop)]
pub enum Course {
    /// No pattern stands before: there are no subject lines.
    Between,
    /// The pattern before them.
    Tests(Tested),
    /// Nothing: the pattern before them was refused.
    Passed,
}

/// A pattern, as it is written and as it is read, with its modifiers.
#[derive(Drop)]
pub struct Tested {
    pub pattern: ByteList,
    pub code: Code,
    pub modifiers: Modifiers,
}
