//! What the words of pcre2test ask for.
use test_modifiers::Modifiers;

/// What the words of pcre2test ask for (pcre2test, "COMMAND LINE OPTIONS").
#[derive(Debug, Drop)]
pub struct TestPlan {
    /// `-q`: no banner is written.
    pub quiet: bool,
    /// The lists of `-pattern` and `-subject`, each over the earlier ones.
    pub defaults: Modifiers,
}
