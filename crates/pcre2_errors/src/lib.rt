//! Why patterns aren't compiled, and why matches and replacements have no answer (pcre2api): the errors
//! of the library's calls, with their numbers and texts.
#![tactic(auto)]

mod dfa_error;
mod error;
mod subst_error;
mod texts;

pub use dfa_error::DfaError;
pub use error::{CompileError, MatchError};
pub use subst_error::SubstError;
pub use texts::fault_text;
