//! What a DFA match answers.
use dfa_lists::EndList;

/// What a DFA match over all start places answers. Places are in bytes from 0 (pcre2api, "Matching a
/// pattern: the alternative function").
#[derive(Debug, Drop)]
pub enum DfaAnswer {
    /// The first place with an end, and all its ends, the longest first; or the shortest of them
    /// alone under DFA_SHORTEST.
    Ends { start: usize, ends: EndList },
    /// No place has an end.
    NoMatch,
    /// A partial match from `start` to the subject's end (pcre2partial).
    Partial { start: usize },
}
